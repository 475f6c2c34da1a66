// The last edit taken back.
#![tactic(auto)]

mod revert; // revert.rt: an entry's bytes put back, validated, and taken out again where the result is refused

ghost use Rattle.std.specs.Prelude.{◌≡◌, ◌+◌, ◌-◌, ◌≤◌, length};
ghost use Rattle.fields.specs.Bytes.{part};
ghost use Rattle.fields.specs.Rule.{Valid};
ghost use Rattle.journal.specs.Machine.{holding, buffers_rule, undo_step};
ghost use Rattle.edits.specs.Editing.{editing};
ghost use Rattle.preconditions.specs.Calls.{state_of, outcome_of};
ghost use Rattle.undo.specs.Undo.{undone};

use crate::revert::revert;
use buffers::block::{clear, move_down};
use fields::rule::unless;
use format::refusals::{Reason, Refusal};
use journal::answer::Done;
use journal::scan::{EntryHead, history_entries, history_entry_at};
use m17::Edition;
use preconditions::check;

// Takes the first n bytes out of a content of `used` bytes.
fn drop_front(d: &mut [u8], used: usize, n: usize)
    requires { (n ≤ used) × (used ≤ length d.old) }
    ensures { d.new ≡ holding d.old used (part d.old n (used - n)) }
{
    move_down(d, n, used - n, n);
    clear(d, used - n, n);
}

// The entry `top` of a history with so many entries taken back.
fn take_back(
    room: &mut [u8],
    len: usize,
    history: &mut [u8],
    used: usize,
    top: EntryHead,
    entries: usize,
    edition: Edition,
) -> Result<Done, Refusal>
    requires { ((len ≤ length room.old) × (used ≤ length history.old)) × (((top.next ≡ top.body + top.taken) × (top.next ≤ used)) × (1 ≤ entries)) }
    ensures { outcome_of result room.new history.new ≡ undone edition room.old len history.old used top entries }
{
    let p = top.place;
    let k = top.put;
    let body = top.body;
    let m = top.taken;
    unless(k <= len, Reason::HistoryEntry, 0)?;
    unless(p <= len - k, Reason::HistoryEntry, 0)?;
    unless(m <= room.len() - (len - k), Reason::HistoryEntry, 0)?;
    let fits = revert(room, len, p, k, history, body, m, edition);
    unless(fits, Reason::HistoryEntry, 0)?;
    drop_front(history, used, body + m);
    Ok(Done {
        len: len - k + m,
        used: used - (body + m),
        entries: entries - 1,
    })
}

fn undo_top(
    room: &mut [u8],
    len: usize,
    history: &mut [u8],
    used: usize,
    edition: Edition,
) -> Result<Done, Refusal>
    requires { buffers_rule (editing edition) (state_of room.old len history.old used) ≡ Valid }
    ensures { outcome_of result room.new history.new ≡ undo_step (editing edition) (state_of room.old len history.old used) }
{
    let entries = history_entries(&history[..used]).ok_or(Refusal {
        reason: Reason::BadHistory,
        place: 0,
    })?;
    let top = history_entry_at(&history[..used], 0).ok_or(Refusal {
        reason: Reason::NoUndo,
        place: 0,
    })?;
    take_back(room, len, history, used, top, entries, edition)
}

// Takes the last edit back, in both buffers, or refuses and leaves them as lent.
pub fn undo(
    room: &mut [u8],
    len: usize,
    history: &mut [u8],
    used: usize,
    edition: Edition,
) -> Result<Done, Refusal>
    ensures { outcome_of result room.new history.new ≡ undo_step (editing edition) (state_of room.old len history.old used) }
{
    check(room, len, history, used, edition)?;
    undo_top(room, len, history, used, edition)
}
