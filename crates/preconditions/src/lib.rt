// What both calls validate first: 30, the codeplug's own refusal, 31.
#![tactic(auto)]

ghost use Rattle.std.specs.Prelude.{◌≡◌};
ghost use Rattle.journal.specs.Entry.{entries_of};
ghost use Rattle.journal.specs.Machine.{whole_rule, buffers_rule};
ghost use Rattle.edits.specs.Editing.{editing};
ghost use Rattle.preconditions.specs.Calls.{state_of};

use fields::rule::unless;
use format::refusals::{Reason, Refusal};
use journal::scan::history_entries;
use m17::Edition;
use validation::validity_of;

#[tactic(auto, using(crate::proofs::PreconditionLaws::whole_counted))]
fn whole_entries(h: &[u8]) -> Result<(), Refusal>
    ensures { result ≡ whole_rule (entries_of h.now) }
{
    unless(history_entries(h).is_some(), Reason::BadHistory, 0)
}

#[tactic(auto, unfolding(journal::specs::Machine::buffers_rule, journal::specs::Machine::file_of, journal::specs::Machine::history_of), using(fields::proofs::Laws::ok_then, fields::proofs::Laws::err_then))]
pub fn check(
    room: &[u8],
    len: usize,
    history: &[u8],
    used: usize,
    edition: Edition,
) -> Result<(), Refusal>
    ensures { result ≡ buffers_rule (editing edition) (state_of room.now len history.now used) }
{
    let inside = (len <= room.len()) & (used <= history.len());
    unless(inside, Reason::BadLength, 0)?;
    validity_of(&room[..len], edition)?;
    whole_entries(&history[..used])
}
