// Validation of the offset table and the banks.
ghost use Rattle.std.specs.Prelude.{◌≡◌, ◌+◌, ◌<◌, ◌^◌};
ghost use Rattle.layout.specs.Banks.{offset_at, offsets_rule, bank_head, bank_at, banks_rule};

use entry_validation::validate_entries;
use fields::rule::{field, unless};
use format::refusals::{Reason, Refusal};
use format::sizes::{BANK_HEAD_SIZE, ENTRY_COUNT_AT, OFFSET_SIZE};
use layout::places::{
    bank_count, banks_place, entry_count, next_bank, offset_place, offset_target, record_bytes,
};
use text::text_field;

// The offset at p is inside the file.
pub fn offset_at(f: &[u8], p: usize) -> Result<(), Refusal>
    requires { p < 2 ^ 62 }
    ensures { result ≡ offset_at f.now p }
{
    field(record_bytes(f, p, 4).len(), p, 0, 4, Reason::Value, true)
}

#[tactic(auto, unfolding(layout::specs::Banks::offsets_rule, layout::specs::Places::offset_place), using(fields::proofs::Laws::each_more, fields::proofs::Laws::each_refused, fields::proofs::Laws::each_none))]
pub fn validate_offsets(f: &[u8]) -> Result<(), Refusal>
    ensures { result ≡ offsets_rule f.now }
{
    let start = offset_place(f, 0);
    for i in 0..bank_count(f) {
        offset_at(f, start + i * OFFSET_SIZE)?;
    }
    Ok(())
}

// A bank's name and entry count.
#[tactic(auto, using(layout::proofs::Laws::bank_head_lent, fields::proofs::Laws::ok_then, fields::proofs::Laws::err_then))]
pub fn bank_head(f: &[u8], p: usize) -> Result<(), Refusal>
    requires { p < 2 ^ 60 }
    ensures { result ≡ bank_head f.now p }
{
    let s = record_bytes(f, p, BANK_HEAD_SIZE);
    text_field(s, p, 0)?;
    field(s.len(), p, ENTRY_COUNT_AT, 2, Reason::Value, true)
}

// The bank at p; its offset stands at t and should lead to it.
#[tactic(auto, unfolding(layout::specs::Banks::bank_at), using(fields::proofs::Laws::ok_then, fields::proofs::Laws::err_then))]
fn bank_at(f: &[u8], t: usize, p: usize) -> Result<(), Refusal>
    requires { (t < 2 ^ 49) × (p < 2 ^ 49) }
    ensures { result ≡ bank_at f.now t p }
{
    unless(offset_target(f, t) == p, Reason::BankOffset, t)?;
    bank_head(f, p)?;
    validate_entries(f, entry_count(f, p), p + BANK_HEAD_SIZE)
}

#[tactic(auto, using(layout::proofs::Laws::banks_begin, layout::proofs::Laws::banks_more, layout::proofs::Laws::banks_refused, layout::proofs::Laws::banks_end))]
pub fn validate_banks(f: &[u8]) -> Result<(), Refusal>
    ensures { result ≡ banks_rule f.now }
{
    let start = offset_place(f, 0);
    let mut p = banks_place(f);
    for i in 0..bank_count(f) {
        bank_at(f, start + i * OFFSET_SIZE, p)?;
        p = next_bank(f, p);
    }
    unless(f.len() <= p, Reason::Trailing, p)
}
