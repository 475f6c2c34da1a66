// What reading the result of an edit of an accepted file gives, and how long it is, told without building it.
#![tactic(auto)]

ghost use Rattle.std.specs.Prelude.{◌≡◌, true, ℕ, ◌+◌, ◌*◌, ◌<◌, ◌≤◌, ◌^◌, length, get_or, ltb};
ghost use Rattle.fields.specs.Bytes.{part, little};
ghost use Rattle.text.specs.Text.{text_ok};
ghost use Rattle.fields.specs.Rule.{◌then◌, unless, each};
ghost use Rattle.fields.specs.Rule.{Valid};
ghost use Rattle.layout.specs.Places.{channel_count, bank_count, contact_place, channel_place};
ghost use Rattle.layout.specs.Banks.{bank_place};
ghost use Rattle.contact.specs.Contact.{contact_rule};
ghost use Rattle.channel.specs.Rule.{channel_rule};
ghost use Rattle.file_rule.specs.File.{index_ok};
ghost use Rattle.model.specs.HasLayout.{HasLayout};
ghost use Rattle.model.specs.Codeplug.{codeplug_of};
ghost use Rattle.model.specs.Kinds.{record_length};
ghost use Rattle.model.specs.EditRules.{place_ok};
ghost use Rattle.edits.specs.ResultValidity.{keeps_mode, result_rule, result_length};
ghost use Rattle.edit_result.specs.Growth.{growth, growth_rule};

use channel::values::{contact_index_place, named_contact};
use fields::numbers::{byte_at, le16};
use fields::rule::unless;
use file_channels::index_ok;
use format::refusals::{Reason, Refusal};
use format::sizes::{
    BANK_ENTRY_SIZE, BANK_HEAD_SIZE, CHANNEL_SIZE, CONTACT_MODE_AT, CONTACT_SIZE, EMPTY_BANK_SIZE,
    FILE_MAX, OFFSET_SIZE,
};
use layout::places::{channel_count, channel_place, contact_place, entry_count, record_bytes};
use m17::Edition;
use model::places::bank_place;
use model::{Kind, is_index};
use text::text_ok;

// How many bytes an edit puts in.
fn growth(k: Kind) -> usize
    ensures { (result ≡ growth k) × (result < 100) }
{
    match k {
        Kind::InsertContact => CONTACT_SIZE,
        Kind::InsertChannel => CHANNEL_SIZE,
        Kind::InsertBank => EMPTY_BANK_SIZE,
        Kind::InsertEntry => BANK_ENTRY_SIZE,
        _ => 0,
    }
}

// The file may grow by what an edit puts in.
fn may_grow(f: &[u8], k: Kind) -> Result<(), Refusal>
    ensures { result ≡ growth_rule k f.now }
{
    let n = growth(k);
    unless((n == 0) | (f.len() + n <= FILE_MAX), Reason::TooLong, 0)
}

// A channel at p that names contact i is of this mode.
fn keeps_mode(f: &[u8], i: usize, mode: u8, p: usize) -> Result<(), Refusal>
    requires { p < 2 ^ 60 }
    ensures { result ≡ keeps_mode f.now i mode p }
{
    let s = record_bytes(f, p, CHANNEL_SIZE);
    let m = byte_at(s, 0);
    if is_index(named_contact(s), i) {
        return unless(m == mode, Reason::ContactIndex, p + contact_index_place(m));
    }
    Ok(())
}

// Every channel that names contact i is of this mode.
#[tactic(auto, using(fields::proofs::Laws::each_more, fields::proofs::Laws::each_refused, fields::proofs::Laws::each_none))]
fn all_keep_mode(f: &[u8], i: usize, mode: u8) -> Result<(), Refusal>
    ensures { result ≡ each (keeps_mode f.now i mode) (channel_count f.now) 90 (channel_place f.now 0) }
{
    let start = channel_place(f, 0);
    for n in 0..channel_count(f) {
        keeps_mode(f, i, mode, start + n * CHANNEL_SIZE)?;
    }
    Ok(())
}

#[tactic(auto, unfolding(contact::specs::Contact::contact_rule), using(fields::proofs::Laws::ok_then, fields::proofs::Laws::err_then))]
fn replace_contact(f: &[u8], i: usize, r: &[u8], edition: Edition) -> Result<(), Refusal>
    requires { i < 65536 }
    ensures { result ≡ contact_rule edition r.now (contact_place i)
        then each (keeps_mode f.now i (get_or r.now 32 0)) (channel_count f.now) 90 (channel_place f.now 0) }
{
    contact_validation::validate(r, contact_place(i), edition)?;
    all_keep_mode(f, i, byte_at(r, CONTACT_MODE_AT))
}

// The record as channel i of the file.
fn put_channel(f: &[u8], i: usize, r: &[u8]) -> Result<(), Refusal>
    requires { i < 65536 }
    ensures { result ≡ channel_rule r.now (channel_place f.now i) (index_ok f.now r.now) }
{
    let named = index_ok(f, r);
    channel_validation::validate(r, channel_place(f, i), named)
}

// The name of bank i, which then stands d bytes behind where the bank is now.
fn name_bank(f: &[u8], i: usize, d: usize, r: &[u8]) -> Result<(), Refusal>
    requires { (HasLayout f.now) × ((i ≤ bank_count f.now) × ((length r.now ≡ 32) × (d ≤ 4))) }
    ensures { result ≡ unless (text_ok r.now) Reason.Text (bank_place f.now i + d) }
{
    unless(text_ok(r), Reason::Text, bank_place(f, i) + d)
}

fn put_entry(f: &[u8], i: usize, j: usize, r: &[u8]) -> Result<(), Refusal>
    requires { (HasLayout f.now) × ((i ≤ bank_count f.now) × ((j < 65536) × (length r.now ≡ 2))) }
    ensures { result ≡ unless (ltb (little r.now) (channel_count f.now)) Reason.BankEntry (bank_place f.now i + 34 + j * 2) }
{
    let index = le16(r, 0) as usize;
    let channels = channel_count(f);
    let p = bank_place(f, i) + BANK_HEAD_SIZE + j * BANK_ENTRY_SIZE;
    unless(index < channels, Reason::BankEntry, p)
}

#[tactic(auto, using(fields::proofs::Laws::ok_then, fields::proofs::Laws::err_then))]
fn set_header(r: &[u8]) -> Result<(), Refusal>
    requires { length r.now ≡ 72 }
    ensures { result ≡ unless (text_ok (part r.now 0 32)) Reason.Text 10 then unless (text_ok (part r.now 32 32)) Reason.Text 42 }
{
    unless(text_ok(record_bytes(r, 0, 32)), Reason::Text, 10)?;
    unless(text_ok(record_bytes(r, 32, 32)), Reason::Text, 42)
}

// What validation says of an edit's record, where the file may grow.
fn record_validity(
    f: &[u8],
    k: Kind,
    i: usize,
    j: usize,
    r: &[u8],
    edition: Edition,
) -> Result<(), Refusal>
    requires { (HasLayout f.now) × ((length r.now ≡ record_length k) × (place_ok k i j (codeplug_of f.now) ≡ true)) }
    ensures { (growth_rule k f.now then result) ≡ result_rule edition k i j r.now f.now }
{
    match k {
        Kind::InsertContact => contact_validation::validate(r, contact_place(i), edition),
        Kind::ReplaceContact => replace_contact(f, i, r, edition),
        Kind::InsertChannel => put_channel(f, i, r),
        Kind::ReplaceChannel => put_channel(f, i, r),
        Kind::InsertBank => name_bank(f, i, OFFSET_SIZE, r),
        Kind::RenameBank => name_bank(f, i, 0, r),
        Kind::InsertEntry => put_entry(f, i, j, r),
        Kind::SetHeader => set_header(r),
        Kind::RemoveContact | Kind::RemoveChannel | Kind::RemoveBank | Kind::RemoveEntry => Ok(()),
    }
}

// What reading the result of an edit gives, told without building it.
#[tactic(auto, using(fields::proofs::Laws::ok_then, fields::proofs::Laws::err_then))]
pub fn result_validity(
    f: &[u8],
    k: Kind,
    i: usize,
    j: usize,
    r: &[u8],
    edition: Edition,
) -> Result<(), Refusal>
    requires { (HasLayout f.now) × ((length r.now ≡ record_length k) × (place_ok k i j (codeplug_of f.now) ≡ true)) }
    ensures { result ≡ result_rule edition k i j r.now f.now }
{
    may_grow(f, k)?;
    record_validity(f, k, i, j, r, edition)
}

// The length of the result, of an edit whose places are there.
pub fn result_length(f: &[u8], k: Kind, i: usize) -> usize
    requires { (HasLayout f.now) × ((j : ℕ) × (place_ok k i j (codeplug_of f.now) ≡ true)) }
    ensures { result ≡ result_length k i f.now }
{
    let n = f.len();
    match k {
        Kind::RemoveContact => n - CONTACT_SIZE,
        Kind::RemoveChannel => n - CHANNEL_SIZE,
        Kind::RemoveBank => n
            - (EMPTY_BANK_SIZE + entry_count(f, bank_place(f, i)) * BANK_ENTRY_SIZE),
        Kind::RemoveEntry => n - BANK_ENTRY_SIZE,
        _ => n + growth(k),
    }
}
