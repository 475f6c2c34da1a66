// A channel written from its numbers.
ghost use Rattle.std.specs.Prelude.{◌≡◌, length};
ghost use Rattle.capi_write.specs.Channels.{info_from, channel_from_c_rule, channel_from_c_written, ChannelFromC};

use capi_numbers::{ChannelInfo, RefusalAnswer};
use channel::{Common, Info};
use fields::rule::unless;
use format::refusals::{Reason, Refusal};
use format::sizes::CHANNEL_SIZE;
use tones::tone_from;

// The info that the numbers mean; any mode but 0 and 1 is taken for M17.
#[tactic(auto, unfolding(crate::specs::Channels::info_from))]
fn info_from(v: ChannelInfo) -> Info
    ensures { result ≡ info_from v }
{
    let contact = channel::values::contact_index_of(v.contact);
    match v.mode {
        channel::FM => Info::Fm(channel::FmInfo {
            receive: tone_from(v.receive_tone, v.receive_tone_on),
            transmit: tone_from(v.transmit_tone, v.transmit_tone_on),
        }),
        channel::DMR => Info::Dmr(channel::DmrInfo {
            colours: v.colours,
            slot: v.slot,
            contact,
        }),
        _ => Info::M17(channel::M17Info {
            access: v.access,
            operation: v.operation,
            encryption: v.encryption,
            position: v.position,
            contact,
        }),
    }
}

#[tactic(auto, unfolding(crate::specs::Channels::channel_from_c_rule, crate::specs::Channels::channel_from_c_written, channel::specs::Values::mode_ok, channel_writer::specs::Writing::channel_written, fields::specs::Rule::written), using(fields::proofs::Laws::ok_then, fields::proofs::Laws::err_then))]
fn write_known(
    out: &mut [u8],
    name: &[u8],
    description: &[u8],
    common: Common,
    info: ChannelInfo,
) -> Result<(), Refusal>
    ensures { (result ≡ channel_from_c_rule (length out.old) name.now description.now common info)
        × (out.new ≡ channel_from_c_written out.old name.now description.now common info) }
{
    unless(CHANNEL_SIZE <= out.len(), Reason::ShortBuffer, 0)?;
    unless(info.mode <= channel::M17, Reason::Mode, 0)?;
    channel_writer::write(out, name, description, common, info_from(info))
}

// Writes a channel's 90 bytes.
pub fn write(
    out: &mut [u8],
    name: &[u8],
    description: &[u8],
    common: Common,
    info: ChannelInfo,
) -> RefusalAnswer
    ensures { ChannelFromC out.old name.now description.now common info result out.new }
{
    write_known(out, name, description, common, info).into()
}
