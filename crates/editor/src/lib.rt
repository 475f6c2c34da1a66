// An edit made in place, and its entry recorded.
#![tactic(auto)]

ghost use Rattle.std.specs.Prelude.{◌≡◌, take};
ghost use Rattle.fields.specs.Rule.{Valid};
ghost use Rattle.journal.specs.Machine.{buffers_rule, edit_step};
ghost use Rattle.plan.specs.Plan.{planned};
ghost use Rattle.edits.specs.Editing.{editing};
ghost use Rattle.preconditions.specs.Calls.{state_of, outcome_of, edit_request};
ghost use Rattle.editor.specs.Edit.{Committable, committed, known_step};

use edit_check::refusal::refusal;
use edit_plan::plan_of;
use fields::rule::unless;
use format::refusals::{Reason, Refusal};
use journal::answer::Done;
use journal::recording::{Span, entry_size, record_entry};
use m17::Edition;
use model::{Kind, kind_of};
use plan::Plan;
use plan_apply::make;
use plan_span::span;
use preconditions::check;

// Records a change whose place and lengths are s, then makes it.
fn commit(
    room: &mut [u8],
    len: usize,
    history: &mut [u8],
    used: usize,
    plan: Plan,
    s: Span,
    bytes: &[u8],
) -> Result<Done, Refusal>
    requires { Committable room.old len history.old used plan s bytes.now }
    ensures { outcome_of result room.new history.new
        ≡ committed (planned plan bytes.now (take len room.old)) (state_of room.old len history.old used) }
{
    let from = s.place;
    let taken = s.taken;
    let new = len - taken + s.put;
    let run = record_entry(history, used, s, &room[from..from + taken]);
    make(room, len, plan, bytes);
    Ok(Done {
        len: new,
        used: run.bytes,
        entries: run.entries,
    })
}

// An edit of a known kind.
fn edit_known(
    room: &mut [u8],
    len: usize,
    history: &mut [u8],
    used: usize,
    k: Kind,
    i: usize,
    j: usize,
    bytes: &[u8],
    edition: Edition,
) -> Result<Done, Refusal>
    requires { buffers_rule (editing edition) (state_of room.old len history.old used) ≡ Valid }
    ensures { outcome_of result room.new history.new ≡ known_step edition k i j bytes.now (state_of room.old len history.old used) }
{
    let size = room.len();
    refusal(&room[..len], size, k, i, j, bytes, edition)?;
    let plan = plan_of(&room[..len], k, i, j);
    let s = span(&room[..len], plan, bytes);
    unless(entry_size(s) <= history.len(), Reason::HistoryTooSmall, 0)?;
    commit(room, len, history, used, plan, s, bytes)
}

// Makes an edit in both buffers, or refuses it and leaves them as lent.
pub fn edit(
    room: &mut [u8],
    len: usize,
    history: &mut [u8],
    used: usize,
    kind: usize,
    first: usize,
    second: usize,
    bytes: &[u8],
    edition: Edition,
) -> Result<Done, Refusal>
    ensures { outcome_of result room.new history.new ≡ edit_step (editing edition)
        (edit_request kind first second bytes.now) (state_of room.old len history.old used) }
{
    check(room, len, history, used, edition)?;
    let k = kind_of(kind).ok_or(Refusal {
        reason: Reason::NoEdit,
        place: 0,
    })?;
    edit_known(room, len, history, used, k, first, second, bytes, edition)
}
