// The contacts of a file, validated: each, and the first bad one.
#![tactic(auto)]

mod whole; // whole.rt: whether all contacts are valid

ghost use Rattle.std.specs.Prelude.{◌≡◌, ◌<◌, ◌^◌};
ghost use Rattle.file_rule.specs.File.{contact_at, contacts_rule};

use crate::whole::{contact_valid, contacts_valid};
use format::refusals::Refusal;
use format::sizes::CONTACT_SIZE;
use layout::places::{contact_count, contact_place, record_bytes};
use m17::Edition;

// The contact at p, field by field.
fn contact_fields(f: &[u8], p: usize, edition: Edition) -> Result<(), Refusal>
    requires { p < 2 ^ 62 }
    ensures { result ≡ contact_at edition f.now p }
{
    contact_validation::validate(record_bytes(f, p, CONTACT_SIZE), p, edition)
}

// The contact at p: its fields are looked at one by one only where it is not valid.
#[tactic(auto, using(fields::proofs::Laws::valid_by_test))]
pub fn contact_at(f: &[u8], p: usize, edition: Edition) -> Result<(), Refusal>
    requires { p < 2 ^ 62 }
    ensures { result ≡ contact_at edition f.now p }
{
    if p + CONTACT_SIZE <= f.len() {
        if contact_valid(f, p, edition) {
            return Ok(());
        }
    }
    contact_fields(f, p, edition)
}

// The first bad contact.
#[tactic(auto, unfolding(file_rule::specs::File::contacts_rule, layout::specs::Places::contact_place), using(fields::proofs::Laws::each_more, fields::proofs::Laws::each_refused, fields::proofs::Laws::each_none))]
fn find_contact(f: &[u8], edition: Edition) -> Result<(), Refusal>
    ensures { result ≡ contacts_rule edition f.now }
{
    for i in 0..contact_count(f) {
        contact_fields(f, contact_place(i), edition)?;
    }
    Ok(())
}

pub fn validate_contacts(f: &[u8], edition: Edition) -> Result<(), Refusal>
    ensures { result ≡ contacts_rule edition f.now }
{
    if contacts_valid(f, edition) {
        return Ok(());
    }
    find_contact(f, edition)
}
