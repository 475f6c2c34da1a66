// A contact's value to its bytes: a buffer that is too short, then the fields in order; a refusal changes nothing.
#![tactic(auto)]

ghost use Rattle.std.specs.Prelude.{◌≡◌, true, ◌++◌, length, take, drop};
ghost use Rattle.fields.specs.Bytes.{zeros};
ghost use Rattle.text.specs.Text.{given_ok};
ghost use Rattle.contact.specs.Contact.{info_write_rule, contact_write_rule, contact_bytes, contact_written, info_bytes};
ghost use Rattle.fields.specs.Rule.{Valid};

use bits::NumberFlag;
use contact::ContactInfo;
use fields::put::{put, put_be48, put_byte, put_le32};
use fields::rule::unless;
use format::refusals::{Reason, Refusal};
use format::sizes::{CONTACT_MODE_AT, CONTACT_SIZE};
use m17::Edition;
use text::given_ok;

fn validate_info(info: ContactInfo, edition: Edition) -> Result<(), Refusal>
    ensures { result ≡ info_write_rule edition info }
{
    match info {
        ContactInfo::M17(a) => unless(m17::address_valid(a, edition), Reason::Address, 33),
        ContactInfo::Dmr(d) => unless(
            bits::number_flag_valid(NumberFlag::from(d.settings)),
            Reason::Value,
            37,
        ),
    }
}

// What a writer refuses of these values and a buffer of so many bytes.
#[tactic(auto, unfolding(contact::specs::Contact::contact_write_rule), using(fields::proofs::Laws::ok_then, fields::proofs::Laws::err_then))]
pub fn validate(
    size: usize,
    name: &[u8],
    info: ContactInfo,
    edition: Edition,
) -> Result<(), Refusal>
    ensures { result ≡ contact_write_rule edition size name.now info }
{
    unless(CONTACT_SIZE <= size, Reason::ShortBuffer, 0)?;
    unless(given_ok(name), Reason::Text, 0)?;
    validate_info(info, edition)
}

// Writes a contact's mode and info behind its name, in a record that is zero from there on.
fn put_info(dst: &mut [u8], info: ContactInfo)
    requires { (length dst.old ≡ 39) × ((drop 32 dst.old ≡ zeros 7) × ((e : Edition) × (info_write_rule e info ≡ Valid))) }
    ensures { dst.new ≡ take 32 dst.old ++ info_bytes info }
{
    match info {
        ContactInfo::M17(a) => {
            put_byte(dst, CONTACT_MODE_AT, contact::M17);
            put_be48(dst, 33, m17::address_number(a));
        }
        ContactInfo::Dmr(d) => {
            put_byte(dst, CONTACT_MODE_AT, contact::DMR);
            put_le32(dst, 33, d.id);
            put_byte(
                dst,
                37,
                bits::number_flag_byte(NumberFlag::from(d.settings)),
            );
        }
    }
}

// The record, from zeros, so that the pad comes out zero.
fn contact_bytes(name: &[u8], info: ContactInfo) -> [u8; CONTACT_SIZE]
    requires { (given_ok name.now ≡ true) × ((e : Edition) × (info_write_rule e info ≡ Valid)) }
    ensures { result ≡ contact_bytes name.now info }
{
    let mut r = [0u8; CONTACT_SIZE];
    put(&mut r, 0, name);
    put_info(&mut r, info);
    r
}

// Writes a contact over the beginning of a buffer.
#[tactic(auto, unfolding(contact::specs::Contact::contact_written), using(fields::proofs::Laws::written_ok, fields::proofs::Laws::written_err, contact::proofs::Laws::given_room, contact::proofs::Laws::given_name, contact::proofs::Laws::given_info, contact::proofs::Laws::record_fits))]
pub fn write(
    out: &mut [u8],
    name: &[u8],
    info: ContactInfo,
    edition: Edition,
) -> Result<(), Refusal>
    ensures { (result ≡ contact_write_rule edition (length out.old) name.now info) × (out.new ≡ contact_written edition out.old name.now info) }
{
    validate(out.len(), name, info, edition)?;
    let r = contact_bytes(name, info);
    put(out, 0, &r);
    Ok(())
}
