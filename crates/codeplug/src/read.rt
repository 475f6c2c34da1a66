// The header, contact n, channel n and bank n of a file: the file's refusal, then that there is no such place.
ghost use Rattle.std.specs.Prelude.{◌≡◌, ◌≤◌, ◌<◌, length};
ghost use Rattle.file_rule.specs.File.{file_rule};
ghost use Rattle.codeplug.specs.Read.{header_of, header_answer, header_read, place_rule, contact_read, channel_read, bank_of, bank_answer, bank_read};
ghost use Rattle.codeplug.specs.There.{ContactThere, ChannelThere, BankLed};
ghost use Rattle.layout.specs.Places.{contact_count, channel_count, bank_count};
ghost use Rattle.fields.specs.Rule.{Valid};

use crate::{Bank, Header};
use channel::Channel;
use channel_reader::channel_of;
use contact::Contact;
use contact_reader::contact_of;
use fields::numbers::{le16, le64};
use fields::put::bytes32;
use fields::rule::unless;
use format::refusals::{Reason, Refusal};
use format::sizes::{BANK_HEAD_SIZE, CHANNEL_SIZE, CONTACT_SIZE, ENTRY_COUNT_AT};
use layout::Counts;
use layout::places::{
    bank_count, channel_count, channel_place, contact_count, contact_place, counts_of,
    offset_place, offset_target, record_bytes,
};
use m17::Edition;
use validation::validity_of;

fn header_of(f: &[u8]) -> Header
    requires { 88 ≤ length f.now }
    ensures { result ≡ header_of f.now }
{
    let counts = counts_of(f);
    Header {
        author: bytes32(f, 10),
        description: bytes32(f, 42),
        timestamp: le64(f, 74),
        counts,
    }
}

// The counts beside a refusal.
pub const NO_COUNTS: Counts = Counts {
    contacts: 0,
    channels: 0,
    banks: 0,
};

// The header of a valid file; `Ok` comes only with the header's 88 bytes.
#[tactic(auto, unfolding(crate::specs::Read::header_answer))]
pub fn header_answer(validity: Result<(), Refusal>, f: &[u8]) -> Result<Header, Refusal>
    requires { validity ≡ Valid → 88 ≤ length f.now }
    ensures { result ≡ header_answer validity f.now }
{
    validity?;
    Ok(header_of(f))
}

// The file's validity, which is the header's.
pub fn header_validity(f: &[u8], edition: Edition) -> Result<(), Refusal>
    ensures { (result ≡ file_rule edition f.now) × (result ≡ Valid → 88 ≤ length f.now) }
{
    validity_of(f, edition)
}

#[tactic(auto, unfolding(crate::specs::Read::header_read, crate::specs::Read::header_answer))]
pub fn header(f: &[u8], edition: Edition) -> Result<Header, Refusal>
    ensures { result ≡ header_read edition f.now }
{
    header_validity(f, edition)?;
    Ok(header_of(f))
}

// The file's refusal, then that there is no such place unless n is below the count.
#[tactic(auto, unfolding(crate::specs::Read::place_rule), using(fields::proofs::Laws::ok_then, fields::proofs::Laws::err_then))]
fn place(f: &[u8], n: usize, count: usize, edition: Edition) -> Result<(), Refusal>
    ensures { result ≡ place_rule edition f.now n count }
{
    validity_of(f, edition)?;
    unless(n < count, Reason::NoPlace, 0)
}

pub fn contact_validity(f: &[u8], n: usize, edition: Edition) -> Result<(), Refusal>
    ensures { (result ≡ place_rule edition f.now n (contact_count f.now)) × (result ≡ Valid → ContactThere f.now n) }
{
    place(f, n, contact_count(f), edition)
}

#[tactic(auto, unfolding(crate::specs::Read::contact_read, contact::specs::Contact::contact_answer))]
pub fn contact(f: &[u8], n: usize, edition: Edition) -> Result<Contact, Refusal>
    ensures { result ≡ contact_read edition f.now n }
{
    contact_validity(f, n, edition)?;
    Ok(contact_of(record_bytes(f, contact_place(n), CONTACT_SIZE)))
}

pub fn channel_validity(f: &[u8], n: usize, edition: Edition) -> Result<(), Refusal>
    ensures { (result ≡ place_rule edition f.now n (channel_count f.now)) × (result ≡ Valid → ChannelThere f.now n) }
{
    place(f, n, channel_count(f), edition)
}

#[tactic(auto, unfolding(crate::specs::Read::channel_read, channel_reader::specs::Reading::channel_answer))]
pub fn channel(f: &[u8], n: usize, edition: Edition) -> Result<Channel, Refusal>
    ensures { result ≡ channel_read edition f.now n }
{
    channel_validity(f, n, edition)?;
    Ok(channel_of(record_bytes(f, channel_place(f, n), CHANNEL_SIZE)))
}

// The value of a valid bank.
pub fn bank_of(s: &[u8]) -> Bank
    requires { 34 ≤ length s.now }
    ensures { result ≡ bank_of s.now }
{
    Bank {
        name: bytes32(s, 0),
        entries: le16(s, ENTRY_COUNT_AT),
    }
}

// The bank in a valid bank's bytes; `Ok` comes only with the first 34 of them.
#[tactic(auto, unfolding(crate::specs::Read::bank_answer))]
pub fn bank_answer(validity: Result<(), Refusal>, s: &[u8]) -> Result<Bank, Refusal>
    requires { validity ≡ Valid → 34 ≤ length s.now }
    ensures { result ≡ bank_answer validity s.now }
{
    validity?;
    Ok(bank_of(s))
}

pub fn bank_validity(f: &[u8], n: usize, edition: Edition) -> Result<(), Refusal>
    ensures { (result ≡ place_rule edition f.now n (bank_count f.now)) × (result ≡ Valid → BankLed f.now n) }
{
    place(f, n, bank_count(f), edition)
}

// The name and entry count of bank n. Of an accepted file the offset table leads to each bank.
#[tactic(auto, unfolding(crate::specs::Read::bank_read, crate::specs::Read::bank_answer, crate::specs::Prevalidated::table_place))]
pub fn bank(f: &[u8], n: usize, edition: Edition) -> Result<Bank, Refusal>
    ensures { result ≡ bank_read edition f.now n }
{
    bank_validity(f, n, edition)?;
    let p = offset_target(f, offset_place(f, n));
    Ok(bank_of(record_bytes(f, p, BANK_HEAD_SIZE)))
}
