// A contact's bytes to its value.
#![tactic(auto)]

ghost use Rattle.std.specs.Prelude.{◌≡◌, ◌≤◌, length};
ghost use Rattle.contact.specs.Contact.{info_of, contact_of, blank_contact, contact_answer, contact_rule};
ghost use Rattle.fields.specs.Rule.{Valid};

use contact::{Contact, ContactInfo, DmrContact, Settings};
use contact_validation::validate;
use fields::numbers::{be48, byte_at, le32};
use fields::put::bytes32;
use format::refusals::Refusal;
use m17::Edition;

// What a valid record's bytes say but for its name.
fn info_of(s: &[u8]) -> ContactInfo
    requires { 39 ≤ length s.now }
    ensures { result ≡ info_of s.now }
{
    if byte_at(s, format::sizes::CONTACT_MODE_AT) == contact::DMR {
        ContactInfo::Dmr(DmrContact {
            id: le32(s, 33),
            settings: Settings::from(byte_at(s, 37)),
        })
    } else {
        ContactInfo::M17(m17::address_for(be48(s, 33)))
    }
}

// The value of a valid record.
pub fn contact_of(s: &[u8]) -> Contact
    requires { 39 ≤ length s.now }
    ensures { result ≡ contact_of s.now }
{
    Contact {
        name: bytes32(s, 0),
        info: info_of(s),
    }
}

// What the C interface has beside a refusal.
pub fn blank() -> Contact
    ensures { result ≡ blank_contact }
{
    Contact {
        name: [0u8; 32],
        info: ContactInfo::Dmr(DmrContact {
            id: 0,
            settings: Settings {
                contact_type: 0,
                rx_tone: false,
            },
        }),
    }
}

// The contact in a valid record's bytes; `Ok` comes only with all 39 of them.
#[tactic(auto, unfolding(contact::specs::Contact::contact_answer))]
pub fn answer(validity: Result<(), Refusal>, s: &[u8]) -> Result<Contact, Refusal>
    requires { validity ≡ Valid → 39 ≤ length s.now }
    ensures { result ≡ contact_answer validity s.now }
{
    validity?;
    Ok(contact_of(s))
}

// A contact from its record's bytes; what stands past 39 is not looked at.
#[tactic(auto, unfolding(contact::specs::Contact::contact_answer), using(contact::proofs::RoundTrip::valid_length))]
pub fn read(s: &[u8], edition: Edition) -> Result<Contact, Refusal>
    ensures { result ≡ contact_answer (contact_rule edition s.now 0) s.now }
{
    validate(s, 0, edition)?;
    Ok(contact_of(s))
}
