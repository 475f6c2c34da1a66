// Bank entries, one at a time, each call going on from the last: by a place, and by a walker that holds the bytes and the place.
#![tactic(auto)]

ghost use Rattle.std.specs.Prelude.{◌≡◌};
ghost use Rattle.entries.specs.Entry.{entry_step};

use fields::numbers::le16;
use format::refusals::{Reason, Refusal};

// A bank entry: the channel's index, and the place of the next entry.
#[derive(Clone, Copy, Debug, PartialEq, Eq)]
pub struct EntryStep {
    pub channel: u16,
    pub next: usize,
}

// Entry i of a bank's entry bytes. Past the last entry there is no such place.
#[tactic(auto, unfolding(crate::specs::Entry::entry_step))]
pub fn entry(s: &[u8], i: usize) -> Result<EntryStep, Refusal>
    ensures { result ≡ entry_step s.now i }
{
    if i < s.len() / 2 {
        Ok(EntryStep {
            channel: le16(s, i * 2),
            next: i + 1,
        })
    } else {
        Err(Refusal {
            reason: Reason::NoPlace,
            place: 0,
        })
    }
}

// A bank's entry bytes and the place of the next entry.
#[derive(Clone, Copy)]
pub struct BankWalker<'a> {
    pub entries: &'a [u8],
    pub at: usize,
}

// A walker at the first entry.
pub fn walker<'a>(entries: &'a [u8]) -> BankWalker<'a>
    ensures { (result.entries ≡ entries.entry) × (result.at ≡ 0) }
{
    BankWalker { entries, at: 0 }
}

// The entry at the walker's place. The walker stays there, as a value cannot be changed by a call: `moved` takes it to the place that the step
// answered.
pub fn peek<'a>(w: BankWalker<'a>) -> Result<EntryStep, Refusal>
    ensures { result ≡ entry_step w.entry.entries.now w.entry.at }
{
    entry(w.entries, w.at)
}

// The walker at another place, as the one that the last step answered.
pub fn moved<'a>(w: BankWalker<'a>, at: usize) -> BankWalker<'a>
    ensures { (result.entries ≡ w.entry.entries) × (result.at ≡ at) }
{
    BankWalker {
        entries: w.entries,
        at,
    }
}

// Entry i by a walker: its parameters are plain, so its callers need not know of the walker.
pub fn walked(entries: &[u8], i: usize) -> Result<EntryStep, Refusal>
    ensures { result ≡ entry_step entries.now i }
{
    peek(moved(walker(entries), i))
}
