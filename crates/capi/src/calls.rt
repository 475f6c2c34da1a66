// The calls on two lent buffers, a codeplug's and its history's.
ghost use Rattle.m17.specs.Edition.{edition_of};
ghost use Rattle.preconditions.specs.Calls.{state_of};
ghost use Rattle.capi.specs.Calls.{Edited, Undone};

use m17::edition_of;

// Takes the last edit back, in both buffers, or refuses and leaves them as lent.
pub fn codeplug_undo(
    room: &mut [u8],
    len: usize,
    history: &mut [u8],
    used: usize,
    edition: u32,
) -> capi_numbers::EditAnswer
    ensures { Undone (edition_of edition) (state_of room.old len history.old used) result room.new history.new }
{
    let by = edition_of(edition);
    let answer = undo::undo(room, len, history, used, by);
    capi_numbers::edit_answer(answer, len, used)
}

// Makes an edit in both buffers, or refuses it and leaves them as lent.
pub fn codeplug_edit(
    room: &mut [u8],
    len: usize,
    history: &mut [u8],
    used: usize,
    kind: usize,
    first: usize,
    second: usize,
    bytes: &[u8],
    edition: u32,
) -> capi_numbers::EditAnswer
    ensures { Edited (edition_of edition) kind first second bytes.now (state_of room.old len history.old used)
        result room.new history.new }
{
    let by = edition_of(edition);
    let answer = editor::edit(room, len, history, used, kind, first, second, bytes, by);
    capi_numbers::edit_answer(answer, len, used)
}
