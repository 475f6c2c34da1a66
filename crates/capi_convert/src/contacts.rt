// A contact as numbers.
ghost use Rattle.std.specs.Prelude.{◌≡◌, ◌≤◌, length};
ghost use Rattle.contact.specs.Contact.{contact_answer};
ghost use Rattle.capi_convert.specs.Contacts.{contact_values, contact_to_c, ContactOut};
ghost use Rattle.fields.specs.Rule.{Valid};

use capi_numbers::ContactValues;
use contact::{Contact, ContactInfo};
use format::refusals::Refusal;

#[repr(C)]
#[derive(Clone, Copy)]
pub struct ContactAnswer {
    pub refusal: capi_numbers::RefusalAnswer,
    pub values: ContactValues,
}

fn contact_values(info: ContactInfo) -> ContactValues
    ensures { result ≡ contact_values info }
{
    match info {
        ContactInfo::Dmr(d) => {
            let s = d.settings;
            ContactValues {
                address: 0,
                id: d.id,
                mode: contact::DMR,
                contact_type: s.contact_type,
                rx_tone: s.rx_tone,
                broadcast: false,
            }
        }
        ContactInfo::M17(a) => ContactValues {
            address: m17::address_number(a),
            id: 0,
            mode: contact::M17,
            contact_type: 0,
            rx_tone: false,
            broadcast: m17::is_broadcast(a),
        },
    }
}

impl From<Result<Contact, Refusal>> for ContactAnswer {
    ghost from_gives = { λ read r. r ≡ contact_to_c read };

    #[tactic(auto, unfolding(crate::specs::Contacts::contact_to_c, contact::specs::Contact::blank_contact))]
    fn from(read: Result<Contact, Refusal>) -> ContactAnswer {
        match read {
            Ok(contact) => ContactAnswer {
                refusal: capi_numbers::OK,
                values: contact_values(contact.info),
            },
            Err(refusal) => ContactAnswer {
                refusal: refusal.into(),
                values: contact_values(contact_reader::blank().info),
            },
        }
    }
}

// A contact with this validity from its 39 bytes; its name goes into the buffer.
pub fn contact_out(name: &mut [u8], v: Result<(), Refusal>, s: &[u8]) -> ContactAnswer
    requires { v ≡ Valid → 39 ≤ length s.now }
    ensures { ContactOut (contact_answer v s.now) name.old result name.new }
{
    contact_reader::answer(crate::texts::put_name(name, v, s), s).into()
}
