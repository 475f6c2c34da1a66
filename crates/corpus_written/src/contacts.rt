// A contact to write, out of a case.
ghost use Rattle.std.specs.Prelude.{◌<◌, ◌^◌};

use crate::strings::{past_string, string};
use contact::{ContactInfo, DmrContact, Settings};
use fields::numbers::{byte_at, le32, le64};
use format::refusals::Refusal;
use m17::{Address, Edition};

fn dmr_at(case: &[u8], k: usize) -> DmrContact
    requires { k < 2 ^ 33 }
{
    let settings = Settings {
        contact_type: byte_at(case, k + 4),
        rx_tone: byte_at(case, k + 5) == 1,
    };
    DmrContact {
        id: le32(case, k),
        settings,
    }
}

// The contact to write but for its name.
fn info_at(case: &[u8], k: usize) -> ContactInfo
    requires { k < 2 ^ 32 }
{
    let sort = byte_at(case, k);
    if sort == 1 {
        return ContactInfo::Dmr(dmr_at(case, k + 1));
    }
    if sort == 2 {
        return ContactInfo::M17(Address::Callsign(le64(case, k + 1)));
    }
    ContactInfo::M17(Address::Broadcast)
}

// Writes the contact that stands in a case from k on over a buffer.
pub(crate) fn write(case: &[u8], k: usize, out: &mut [u8], edition: Edition) -> Result<(), Refusal>
    requires { k < 300 }
{
    let info = info_at(case, past_string(case, k));
    contact_writer::write(out, string(case, k), info, edition)
}
