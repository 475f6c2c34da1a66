// A contact written from its numbers.
ghost use Rattle.std.specs.Prelude.{◌≡◌, length};
ghost use Rattle.capi_write.specs.Contacts.{info_from, contact_from_c_rule, contact_from_c_written, ContactFromC};

use capi_numbers::{ContactValues, RefusalAnswer};
use contact::ContactInfo;
use fields::rule::unless;
use format::refusals::{Reason, Refusal};
use format::sizes::{CONTACT_MODE_AT, CONTACT_SIZE};
use m17::{Address, Edition};

// The info that the numbers mean; any mode but 1 is taken for M17.
fn info_from(v: ContactValues) -> ContactInfo
    ensures { result ≡ info_from v }
{
    if v.mode == contact::DMR {
        let settings = contact::Settings {
            contact_type: v.contact_type,
            rx_tone: v.rx_tone,
        };
        return ContactInfo::Dmr(contact::DmrContact { id: v.id, settings });
    }
    if v.broadcast {
        return ContactInfo::M17(Address::Broadcast);
    }
    ContactInfo::M17(Address::Callsign(v.address))
}

// A mode that is not there is refused behind what stands before it; where it is there, the library's writer validates all.
#[tactic(auto, unfolding(crate::specs::Contacts::contact_from_c_rule, crate::specs::Contacts::contact_from_c_written, fields::specs::Rule::written), using(fields::proofs::Laws::ok_then, fields::proofs::Laws::err_then))]
fn write_known(
    out: &mut [u8],
    name: &[u8],
    values: ContactValues,
    edition: Edition,
) -> Result<(), Refusal>
    ensures { (result ≡ contact_from_c_rule edition (length out.old) name.now values)
        × (out.new ≡ contact_from_c_written edition out.old name.now values) }
{
    if values.mode == contact::DMR || values.mode == contact::M17 {
        return contact_writer::write(out, name, info_from(values), edition);
    }
    unless(CONTACT_SIZE <= out.len(), Reason::ShortBuffer, 0)?;
    unless(text::given_ok(name), Reason::Text, 0)?;
    Err(Refusal {
        reason: Reason::Mode,
        place: CONTACT_MODE_AT,
    })
}

// Writes a contact's 39 bytes.
pub fn write(out: &mut [u8], name: &[u8], values: ContactValues, edition: Edition) -> RefusalAnswer
    ensures { ContactFromC edition out.old name.now values result out.new }
{
    write_known(out, name, values, edition).into()
}
