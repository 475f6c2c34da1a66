// The entries of a bank, validated (document 01, "The file").
#![tactic(auto)]

mod whole; // whole.rt: whether all entries are valid

ghost use Rattle.std.specs.Prelude.{◌≡◌, ◌+◌, ◌<◌, ◌^◌};
ghost use Rattle.fields.specs.Rule.{each};
ghost use Rattle.layout.specs.Places.{channel_count};
ghost use Rattle.layout.specs.Banks.{entry_at};

use crate::whole::entries_valid;
use fields::numbers::le16;
use fields::rule::field;
use format::refusals::{Reason, Refusal};
use format::sizes::BANK_ENTRY_SIZE;
use layout::places::{channel_count, record_bytes};

#[tactic(auto, unfolding(layout::specs::Banks::entry_at))]
fn entry_at(f: &[u8], p: usize, channels: usize) -> Result<(), Refusal>
    requires { (p < 2 ^ 60) × (channels ≡ channel_count f.now) }
    ensures { result ≡ entry_at f.now p }
{
    let index = le16(f, p) as usize;
    field(
        record_bytes(f, p, 2).len(),
        p,
        0,
        2,
        Reason::BankEntry,
        index < channels,
    )
}

// The first bad one of n entries.
#[tactic(auto, using(fields::proofs::Laws::each_more, fields::proofs::Laws::each_refused, fields::proofs::Laws::each_none))]
fn find_entry(f: &[u8], n: usize, start: usize) -> Result<(), Refusal>
    requires { (n < 65536) × (start < 2 ^ 50) }
    ensures { result ≡ each (entry_at f.now) n 2 start }
{
    let channels = channel_count(f);
    for i in 0..n {
        entry_at(f, start + i * BANK_ENTRY_SIZE, channels)?;
    }
    Ok(())
}

pub fn validate_entries(f: &[u8], n: usize, start: usize) -> Result<(), Refusal>
    requires { (n < 65536) × (start < 2 ^ 50) }
    ensures { result ≡ each (entry_at f.now) n 2 start }
{
    if entries_valid(f, n, start) {
        return Ok(());
    }
    find_entry(f, n, start)
}
