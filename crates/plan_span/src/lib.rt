// A change's place and lengths (document 01, "The history"), told before anything is written.
#![tactic(auto)]

ghost use Rattle.std.specs.Prelude.{◌≡◌, ◌+◌, ◌^◌, ◌<◌, ◌≤◌, length};
ghost use Rattle.fields.specs.Bytes.{over};
ghost use Rattle.journal.specs.Change.{entry_of};
ghost use Rattle.journal.specs.Span.{span_of};
ghost use Rattle.plan.specs.Plan.{counted, planned};
ghost use Rattle.plan.specs.declared.Plan.TheVariants as plan;
ghost use Rattle.plan.specs.Fits.{CountedFits, Fits};
ghost use Rattle.plan_span.specs.Measure.{span_from, apart_span};

use affixes::pieces::common_suffix_pieces;
use affixes::{common_prefix, common_suffix};
use fields::numbers::le16;
use journal::recording::Span;
use layout::places::{bank_count, banks_place, channel_count, channel_place};
use plan::numbers::{bytes16, bytes32};
use plan::{Block, Counted, Plan, Table};
use plan_suffix::{bank_suffix, entries_suffix};
use renumber::shift::{Shift, shifted};
use renumber_last::{last_contact, last_entry};

// A change from p on, with so many bytes that agree behind it in files of these lengths.
fn span_from(p: usize, tail: usize, old: usize, new: usize) -> Span
    requires { (p + tail ≤ old) × (p + tail ≤ new) }
    ensures { result ≡ span_from p tail old new }
{
    Span {
        place: p,
        put: new - (p + tail),
        taken: old - (p + tail),
    }
}

// r over the bytes at a place.
fn replace_span(f: &[u8], at: usize, r: &[u8]) -> Span
    requires { at + length r.now ≤ length f.now }
    ensures { result ≡ span_of (entry_of f.now (over f.now at r.now)) }
{
    let n = r.len();
    let x = &f[at..at + n];
    let c = common_prefix(x, r);
    if c == n {
        return span_from(f.len(), 0, f.len(), f.len());
    }
    let tail = common_suffix(&x[c..], &r[c..]);
    span_from(at + c, f.len() - (at + n) + tail, f.len(), f.len())
}

// A cut and its count; nothing else moves.
fn counted_span(f: &[u8], c: Counted, r: &[u8]) -> Span
    requires { CountedFits c f.now (length f.now) }
    ensures { result ≡ span_of (entry_of f.now (counted c r.now f.now)) }
{
    let counter = c.counter;
    let at = c.at;
    let end = at + c.gone;
    let n = bytes16(c.count);
    let tail = common_suffix_pieces(&f[counter..end], &[&n, &f[counter + 2..at], r]);
    span_from(
        counter,
        f.len() - end + tail,
        f.len(),
        f.len() - c.gone + r.len(),
    )
}

// A cut and its count, where the index at l is the last that moves, to x: its low byte changes, its high byte may.
fn apart_span(f: &[u8], c: Counted, l: usize, x: u16, r: &[u8]) -> Span
    requires { (CountedFits c f.now l) × (l + 2 ≤ length f.now) }
    ensures { result ≡ apart_span c r.now f.now l x }
{
    let new = f.len() - c.gone + r.len();
    let behind = f.len() - (l + 2);
    if f[l + 1] as u16 == x / 256 {
        return span_from(c.counter, behind + 1, f.len(), new);
    }
    span_from(c.counter, behind, f.len(), new)
}

fn contacts_span(f: &[u8], s: Shift, c: Counted, r: &[u8]) -> Span
    requires { Fits (plan.Contacts s c) r.now f.now }
    ensures { result ≡ span_of (entry_of f.now (planned (plan.Contacts s c) r.now f.now)) }
{
    match last_contact(f, channel_place(f, 0), channel_count(f), s) {
        None => counted_span(f, c, r),
        Some(l) => apart_span(f, c, l, shifted(le16(f, l), s), r),
    }
}

fn channels_span(f: &[u8], s: Shift, c: Counted, r: &[u8]) -> Span
    requires { (Fits (plan.Channels s c) r.now f.now) × (length f.now < 2 ^ 32) }
    ensures { result ≡ span_of (entry_of f.now (planned (plan.Channels s c) r.now f.now)) }
{
    match last_entry(f, banks_place(f), bank_count(f), s) {
        None => counted_span(f, c, r),
        Some(l) => apart_span(f, c, l, shifted(le16(f, l), s), r),
    }
}

#[tactic(auto, unfolding(plan::specs::Fits::Fits))]
fn entries_span(f: &[u8], t: Table, c: Counted, r: &[u8]) -> Span
    requires { Fits (plan.Entries t c) r.now f.now }
    ensures { result ≡ span_of (entry_of f.now (planned (plan.Entries t c) r.now f.now)) }
{
    if t.many == 0 {
        return counted_span(f, c, r);
    }
    let end = c.at + c.gone;
    let new = f.len() - c.gone + r.len();
    let tail = entries_suffix(f, t, c, r);
    span_from(t.start, f.len() - end + tail, f.len(), new)
}

#[tactic(auto, unfolding(plan::specs::Fits::Fits))]
fn add_bank_span(f: &[u8], t: Table, at: usize, offset: u32, c: Counted, r: &[u8]) -> Span
    requires { Fits (plan.AddBank t at offset c) r.now f.now }
    ensures { result ≡ span_of (entry_of f.now (planned (plan.AddBank t at offset c) r.now f.now)) }
{
    let zeros = [0u8; 2];
    let bytes = bytes32(offset);
    let tail = bank_suffix(f, t, Block { at, size: 0 }, r, &zeros, c, &bytes);
    span_from(
        c.counter,
        f.len() - at + tail,
        f.len(),
        f.len() + r.len() + 6,
    )
}

#[tactic(auto, unfolding(plan::specs::Fits::Fits))]
fn drop_bank_span(f: &[u8], t: Table, b: Block, c: Counted, r: &[u8]) -> Span
    requires { Fits (plan.DropBank t b c) r.now f.now }
    ensures { result ≡ span_of (entry_of f.now (planned (plan.DropBank t b c) r.now f.now)) }
{
    let end = b.at + b.size;
    let new = f.len() - b.size - c.gone;
    let none = &r[..0];
    let tail = bank_suffix(f, t, b, none, none, c, none);
    span_from(c.counter, f.len() - end + tail, f.len(), new)
}

// The place and lengths of the change that a plan makes.
pub fn span(f: &[u8], p: Plan, r: &[u8]) -> Span
    requires { (Fits p r.now f.now) × (length f.now < 2 ^ 32) }
    ensures { result ≡ span_of (entry_of f.now (planned p r.now f.now)) }
{
    match p {
        Plan::Replace(at) => replace_span(f, at, r),
        Plan::Contacts(s, c) => contacts_span(f, s, c, r),
        Plan::Channels(s, c) => channels_span(f, s, c, r),
        Plan::Entries(t, c) => entries_span(f, t, c, r),
        Plan::AddBank(t, at, offset, c) => add_bank_span(f, t, at, offset, c, r),
        Plan::DropBank(t, b, c) => drop_bank_span(f, t, b, c, r),
    }
}
