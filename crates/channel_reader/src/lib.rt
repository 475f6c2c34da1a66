// A channel's bytes to its value.
#![tactic(auto)]

ghost use Rattle.std.specs.Prelude.{◌≡◌, true, ◌≤◌, length};
ghost use Rattle.channel.specs.Rule.{channel_rule};
ghost use Rattle.channel_reader.specs.Reading.{location_of, common_of, fm_of, dmr_of, m17_of, info_of, channel_of, blank_channel, channel_answer};
ghost use Rattle.fields.specs.Rule.{Valid};

use bits::{Nibbles, signed_of};
use channel::values::contact_index_of;
use channel::{Channel, Common, DmrInfo, FmInfo, Info, Location, M17Info, Traits};
use channel_validation::validate;
use fields::numbers::{byte_at, le16, le32};
use fields::put::bytes32;
use format::refusals::Refusal;
use format::sizes::{DMR_CONTACT_AT, M17_CONTACT_AT};
use tones::{Tone, tone_of};

fn location_of(s: &[u8]) -> Location
    ensures { result ≡ location_of s.now }
{
    Location {
        latitude: signed_of(byte_at(s, 77)),
        latitude_e4: le16(s, 78),
        longitude: signed_of(byte_at(s, 80)),
        longitude_e4: le16(s, 81),
        altitude_plus_500: le16(s, 83),
    }
}

// What a valid record's bytes say of any mode, but for the texts.
pub fn common_of(s: &[u8]) -> Common
    ensures { result ≡ common_of s.now }
{
    let traits = Traits::from(byte_at(s, 1));
    let location = location_of(s);
    Common {
        traits,
        power: byte_at(s, 2),
        receive_hz: le32(s, 3),
        transmit_hz: le32(s, 7),
        scan_list: byte_at(s, 11),
        group_list: byte_at(s, 12),
        location,
    }
}

// What they say by the mode.
pub fn fm_of(s: &[u8]) -> FmInfo
    ensures { result ≡ fm_of s.now }
{
    FmInfo {
        receive: tone_of(byte_at(s, 85)),
        transmit: tone_of(byte_at(s, 86)),
    }
}

pub fn dmr_of(s: &[u8]) -> DmrInfo
    ensures { result ≡ dmr_of s.now }
{
    DmrInfo {
        colours: Nibbles::from(byte_at(s, 85)),
        slot: byte_at(s, 86),
        contact: contact_index_of(le16(s, DMR_CONTACT_AT)),
    }
}

pub fn m17_of(s: &[u8]) -> M17Info
    ensures { result ≡ m17_of s.now }
{
    let access = Nibbles::from(byte_at(s, 85));
    let h = Nibbles::from(byte_at(s, 86));
    let contact = contact_index_of(le16(s, M17_CONTACT_AT));
    M17Info {
        access,
        operation: h.high,
        encryption: h.low,
        position: byte_at(s, 87) == 1,
        contact,
    }
}

fn info_of(s: &[u8]) -> Info
    ensures { result ≡ info_of s.now }
{
    let mode = byte_at(s, 0);
    if mode == channel::FM {
        return Info::Fm(fm_of(s));
    }
    if mode == channel::DMR {
        return Info::Dmr(dmr_of(s));
    }
    Info::M17(m17_of(s))
}

// The value of a valid record.
pub fn channel_of(s: &[u8]) -> Channel
    requires { 90 ≤ length s.now }
    ensures { result ≡ channel_of s.now }
{
    let common = common_of(s);
    let info = info_of(s);
    Channel {
        name: bytes32(s, 13),
        description: bytes32(s, 45),
        common,
        info,
    }
}

// What the C interface has beside a refusal.
pub fn blank() -> Channel
    ensures { result ≡ blank_channel }
{
    let location = Location {
        latitude: 0,
        latitude_e4: 0,
        longitude: 0,
        longitude_e4: 0,
        altitude_plus_500: 0,
    };
    let traits = Traits {
        bandwidth: 0,
        receive_only: true,
    };
    let common = Common {
        traits,
        power: 0,
        receive_hz: 0,
        transmit_hz: 0,
        scan_list: 0,
        group_list: 0,
        location,
    };
    let tones = FmInfo {
        receive: Tone::Disabled(0),
        transmit: Tone::Disabled(0),
    };
    Channel {
        name: [0u8; 32],
        description: [0u8; 32],
        common,
        info: Info::Fm(tones),
    }
}

// The channel in a valid record's bytes; `Ok` comes only with all 90 of them.
#[tactic(auto, unfolding(crate::specs::Reading::channel_answer))]
pub fn answer(validity: Result<(), Refusal>, s: &[u8]) -> Result<Channel, Refusal>
    requires { validity ≡ Valid → 90 ≤ length s.now }
    ensures { result ≡ channel_answer validity s.now }
{
    validity?;
    Ok(channel_of(s))
}

// A channel from its record's bytes; what stands past 90 is not looked at. Whether its contact index names a contact is the file's to
// say.
#[tactic(auto, unfolding(crate::specs::Reading::channel_answer), using(channel::proofs::Laws::valid_length))]
pub fn read(s: &[u8]) -> Result<Channel, Refusal>
    ensures { result ≡ channel_answer (channel_rule s.now 0 true) s.now }
{
    validate(s, 0, true)?;
    Ok(channel_of(s))
}
