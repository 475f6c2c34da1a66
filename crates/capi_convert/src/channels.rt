// A channel as numbers.
ghost use Rattle.std.specs.Prelude.{◌≡◌, length};
ghost use Rattle.channel_reader.specs.Reading.{info_of, channel_answer};
ghost use Rattle.capi_convert.specs.Channels.{channel_info, ChannelOut};
ghost use Rattle.fields.specs.Rule.{Valid};

use bits::Nibbles;
use capi_numbers::{ChannelInfo, RefusalAnswer};
use channel::Info;
use channel::values::contact_index_number;
use format::refusals::Refusal;
use format::sizes::CHANNEL_SIZE;
use tones::{index_in, is_enabled};

#[repr(C)]
#[derive(Clone, Copy)]
pub struct ChannelAnswer {
    pub refusal: RefusalAnswer,
    pub common: channel::Common,
    pub info: ChannelInfo,
}

// A blank channel's numbers; in another channel's, those of the other modes. Contact 65,535 is nobody.
const NO_INFO: ChannelInfo = ChannelInfo {
    contact: 65535,
    mode: channel::FM,
    receive_tone: 0,
    receive_tone_on: false,
    transmit_tone: 0,
    transmit_tone_on: false,
    colours: Nibbles { high: 0, low: 0 },
    slot: 0,
    access: Nibbles { high: 0, low: 0 },
    operation: 0,
    encryption: 0,
    position: false,
};

#[tactic(auto, unfolding(crate::specs::Channels::channel_info))]
fn fm_info(i: channel::FmInfo) -> ChannelInfo
    ensures { result ≡ channel_info (Info.Fm i) }
{
    ChannelInfo {
        receive_tone: index_in(i.receive),
        receive_tone_on: is_enabled(i.receive),
        transmit_tone: index_in(i.transmit),
        transmit_tone_on: is_enabled(i.transmit),
        ..NO_INFO
    }
}

#[tactic(auto, unfolding(crate::specs::Channels::channel_info))]
fn dmr_info(i: channel::DmrInfo) -> ChannelInfo
    ensures { result ≡ channel_info (Info.Dmr i) }
{
    ChannelInfo {
        contact: contact_index_number(i.contact),
        mode: channel::DMR,
        colours: i.colours,
        slot: i.slot,
        ..NO_INFO
    }
}

#[tactic(auto, unfolding(crate::specs::Channels::channel_info))]
fn m17_info(i: channel::M17Info) -> ChannelInfo
    ensures { result ≡ channel_info (Info.M17 i) }
{
    ChannelInfo {
        contact: contact_index_number(i.contact),
        mode: channel::M17,
        access: i.access,
        operation: i.operation,
        encryption: i.encryption,
        position: i.position,
        ..NO_INFO
    }
}

#[tactic(auto, unfolding(channel_reader::specs::Reading::info_of))]
fn channel_info(s: &[u8]) -> ChannelInfo
    ensures { result ≡ channel_info (info_of s.now) }
{
    match fields::numbers::byte_at(s, 0) {
        channel::FM => fm_info(channel_reader::fm_of(s)),
        channel::DMR => dmr_info(channel_reader::dmr_of(s)),
        _ => m17_info(channel_reader::m17_of(s)),
    }
}

// A channel with this validity from its 90 bytes; name and description go into the buffer. `whole` is those bytes again, but says to the
// compiler how many there are.
pub fn channel_out(texts: &mut [u8], v: Result<(), Refusal>, s: &[u8]) -> ChannelAnswer
    requires { v ≡ Valid → length s.now ≡ 90 }
    ensures { ChannelOut (channel_answer v s.now) texts.old result texts.new }
{
    if let Err(refusal) = crate::texts::put_texts(texts, v, s, 13) {
        return ChannelAnswer {
            refusal: refusal.into(),
            common: channel_reader::blank().common,
            info: NO_INFO,
        };
    }
    let whole = &s[0..CHANNEL_SIZE];
    ChannelAnswer {
        refusal: capi_numbers::OK,
        common: channel_reader::common_of(whole),
        info: channel_info(whole),
    }
}
