// A channel to write, out of a case.
ghost use Rattle.std.specs.Prelude.{◌<◌, ◌^◌};

use crate::strings::{past_string, string};
use bits::{Nibbles, signed_of};
use channel::{Common, DmrInfo, FmInfo, Info, Location, M17Info, Traits};
use fields::numbers::{byte_at, le16, le32};
use format::refusals::Refusal;
use tones::Tone;

fn flag_at(case: &[u8], k: usize) -> bool {
    byte_at(case, k) == 1
}

fn location_at(case: &[u8], k: usize) -> Location
    requires { k < 2 ^ 32 }
{
    Location {
        latitude: signed_of(byte_at(case, k)),
        latitude_e4: le16(case, k + 1),
        longitude: signed_of(byte_at(case, k + 3)),
        longitude_e4: le16(case, k + 4),
        altitude_plus_500: le16(case, k + 6),
    }
}

// What stands before the texts, from the mode at k on, and the location, at l.
fn common_at(case: &[u8], k: usize, l: usize) -> Common
    requires { (k < 2 ^ 32) × (l < 2 ^ 32) }
{
    let traits = Traits {
        bandwidth: byte_at(case, k + 1),
        receive_only: flag_at(case, k + 2),
    };
    let location = location_at(case, l);
    Common {
        traits,
        power: byte_at(case, k + 3),
        receive_hz: le32(case, k + 4),
        transmit_hz: le32(case, k + 8),
        scan_list: byte_at(case, k + 12),
        group_list: byte_at(case, k + 13),
        location,
    }
}

fn tone_at(case: &[u8], k: usize) -> Tone
    requires { k < 2 ^ 33 }
{
    let index = byte_at(case, k + 1);
    if flag_at(case, k) {
        Tone::Enabled(index)
    } else {
        Tone::Disabled(index)
    }
}

fn contact_at(case: &[u8], k: usize) -> Option<u16>
    requires { k < 2 ^ 33 }
{
    if flag_at(case, k) {
        Some(le16(case, k + 1))
    } else {
        None
    }
}

fn nibbles_at(case: &[u8], k: usize) -> Nibbles
    requires { k < 2 ^ 33 }
{
    Nibbles {
        high: byte_at(case, k),
        low: byte_at(case, k + 1),
    }
}

fn fm_at(case: &[u8], k: usize) -> FmInfo
    requires { k < 2 ^ 32 }
{
    FmInfo {
        receive: tone_at(case, k),
        transmit: tone_at(case, k + 2),
    }
}

fn dmr_at(case: &[u8], k: usize) -> DmrInfo
    requires { k < 2 ^ 32 }
{
    DmrInfo {
        colours: nibbles_at(case, k),
        slot: byte_at(case, k + 2),
        contact: contact_at(case, k + 3),
    }
}

fn m17_at(case: &[u8], k: usize) -> M17Info
    requires { k < 2 ^ 32 }
{
    M17Info {
        access: nibbles_at(case, k),
        operation: byte_at(case, k + 2),
        encryption: byte_at(case, k + 3),
        position: flag_at(case, k + 4),
        contact: contact_at(case, k + 5),
    }
}

// A channel's info.
fn info_at(case: &[u8], mode: u8, k: usize) -> Info
    requires { k < 2 ^ 32 }
{
    if mode == channel::FM {
        return Info::Fm(fm_at(case, k));
    }
    if mode == channel::DMR {
        return Info::Dmr(dmr_at(case, k));
    }
    Info::M17(m17_at(case, k))
}

// Writes the channel that stands in a case from k on over a buffer.
pub(crate) fn write(case: &[u8], k: usize, out: &mut [u8]) -> Result<(), Refusal>
    requires { k < 300 }
{
    let name = k + 14;
    let description = past_string(case, name);
    let after = past_string(case, description);
    let common = common_at(case, k, after);
    let info = info_at(case, byte_at(case, k), after + 8);
    channel_writer::write(
        out,
        string(case, name),
        string(case, description),
        common,
        info,
    )
}
