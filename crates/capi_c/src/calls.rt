// The calls on two lent buffers, a codeplug's and its history's.
ghost use Rattle.m17.specs.Edition.{edition_of};
ghost use Rattle.preconditions.specs.Calls.{state_of};
ghost use Rattle.capi.specs.Calls.{Edited, Undone};

// Takes the last edit back, in both buffers, or refuses and leaves them as lent.
#[unsafe(no_mangle)]
pub extern "C" fn codeplug_undo(
    room: &mut [u8],
    len: usize,
    history: &mut [u8],
    used: usize,
    edition: u32,
) -> capi_numbers::EditAnswer
    ensures { Undone (edition_of edition) (state_of room.old len history.old used) result room.new history.new }
{
    capi::calls::codeplug_undo(room, len, history, used, edition)
}

// Makes an edit in both buffers, or refuses it and leaves them as lent.
#[unsafe(no_mangle)]
pub extern "C" fn codeplug_edit(
    room: &mut [u8],
    len: usize,
    history: &mut [u8],
    used: usize,
    kind: usize,
    first: usize,
    second: usize,
    bytes: &[u8],
    edition: u32,
) -> capi_numbers::EditAnswer
    ensures { Edited (edition_of edition) kind first second bytes.now (state_of room.old len history.old used)
        result room.new history.new }
{
    capi::calls::codeplug_edit(
        room, len, history, used, kind, first, second, bytes, edition,
    )
}
