// Records of a file that was validated before, without validating it again. It answers for any bytes.
#![tactic(auto)]

ghost use Rattle.std.specs.Prelude.{◌≡◌};
ghost use Rattle.codeplug.specs.Prevalidated.{contact_prevalidated_rule, contact_prevalidated, channel_prevalidated_rule, channel_prevalidated, bank_prevalidated_rule, bank_prevalidated, entries_prevalidated};
ghost use Rattle.codeplug.specs.There.{ContactThere, ChannelThere, BankThere};
ghost use Rattle.fields.specs.Rule.{Valid};

use channel::Channel;
use channel_reader::channel_of;
use codeplug::Bank;
use codeplug::bank_entries::entry_bytes;
use codeplug::read::bank_of;
use contact::Contact;
use contact_reader::contact_of;
use file_channels::channel_at;
use file_contacts::contact_at;
use format::refusals::{Reason, Refusal};
use format::sizes::{BANK_HEAD_SIZE, CHANNEL_SIZE, CONTACT_SIZE};
use layout::places::{
    bank_count, channel_count, channel_place, contact_count, contact_place, offset_place,
    offset_target, record_bytes,
};
use layout_validation::banks::{bank_head, offset_at};
use m17::Edition;

#[tactic(auto, using(codeplug::proofs::Laws::place_past))]
pub fn contact_validity(f: &[u8], n: usize, edition: Edition) -> Result<(), Refusal>
    ensures { (result ≡ contact_prevalidated_rule edition f.now n) × (result ≡ Valid → ContactThere f.now n) }
{
    if contact_count(f) <= n {
        return Err(Refusal {
            reason: Reason::NoPlace,
            place: 0,
        });
    }
    contact_at(f, contact_place(n), edition)
}

#[tactic(auto, unfolding(codeplug::specs::Prevalidated::contact_prevalidated, contact::specs::Contact::contact_answer))]
pub fn contact(f: &[u8], n: usize, edition: Edition) -> Result<Contact, Refusal>
    ensures { result ≡ contact_prevalidated edition f.now n }
{
    contact_validity(f, n, edition)?;
    Ok(contact_of(record_bytes(f, contact_place(n), CONTACT_SIZE)))
}

#[tactic(auto, using(codeplug::proofs::Laws::place_below, codeplug::proofs::Laws::place_past, codeplug::proofs::Laws::channel_whole))]
pub fn channel_validity(f: &[u8], n: usize) -> Result<(), Refusal>
    ensures { (result ≡ channel_prevalidated_rule f.now n) × (result ≡ Valid → ChannelThere f.now n) }
{
    if channel_count(f) <= n {
        return Err(Refusal {
            reason: Reason::NoPlace,
            place: 0,
        });
    }
    channel_at(f, channel_place(f, n))
}

#[tactic(auto, unfolding(codeplug::specs::Prevalidated::channel_prevalidated, channel_reader::specs::Reading::channel_answer))]
pub fn channel(f: &[u8], n: usize) -> Result<Channel, Refusal>
    ensures { result ≡ channel_prevalidated f.now n }
{
    channel_validity(f, n)?;
    Ok(channel_of(record_bytes(f, channel_place(f, n), CHANNEL_SIZE)))
}

#[tactic(auto, unfolding(codeplug::specs::Prevalidated::bank_prevalidated_rule, codeplug::specs::Prevalidated::table_place), using(codeplug::proofs::Laws::place_below, codeplug::proofs::Laws::place_past, codeplug::proofs::Laws::bank_whole, fields::proofs::Laws::ok_then, fields::proofs::Laws::err_then))]
pub fn bank_validity(f: &[u8], n: usize) -> Result<(), Refusal>
    ensures { (result ≡ bank_prevalidated_rule f.now n) × (result ≡ Valid → BankThere f.now n) }
{
    if bank_count(f) <= n {
        return Err(Refusal {
            reason: Reason::NoPlace,
            place: 0,
        });
    }
    let t = offset_place(f, n);
    offset_at(f, t)?;
    bank_head(f, offset_target(f, t))
}

#[tactic(auto, unfolding(codeplug::specs::Prevalidated::bank_prevalidated, codeplug::specs::Prevalidated::table_place, codeplug::specs::Read::bank_answer))]
pub fn bank(f: &[u8], n: usize) -> Result<Bank, Refusal>
    ensures { result ≡ bank_prevalidated f.now n }
{
    bank_validity(f, n)?;
    let p = offset_target(f, offset_place(f, n));
    Ok(bank_of(record_bytes(f, p, BANK_HEAD_SIZE)))
}

// The bytes of bank n's entries; fewer than its entry count says where the file ends before.
#[tactic(auto, unfolding(codeplug::specs::Prevalidated::entries_prevalidated, codeplug::specs::Prevalidated::table_place, codeplug::specs::Read::entries_answer))]
pub fn entries(f: &[u8], n: usize) -> &[u8]
    ensures { result.now ≡ entries_prevalidated f.now n }
{
    match bank_validity(f, n) {
        Ok(()) => entry_bytes(f, offset_target(f, offset_place(f, n))),
        Err(_) => &f[..0],
    }
}
