// The calls of a list, each on what the last one left.
ghost use Rattle.std.specs.Prelude.{◌≤◌, ◌<◌, ◌^◌, length};

use crate::print;
use editor::edit;
use fields::numbers::{byte_at, le64};
use format::refusals::Refusal;
use journal::answer::Done;
use layout::places::record_bytes;
use m17::Edition;
use std::io;
use std::io::Write;
use undo::undo;

// The first call of s: an undo, or an edit with its kind, places and record.
fn call(
    s: &[u8],
    room: &mut [u8],
    len: usize,
    history: &mut [u8],
    used: usize,
    edition: Edition,
) -> Result<Done, Refusal> {
    if byte_at(s, 0) == 0 {
        return undo(room, len, history, used, edition);
    }
    let kind = le64(s, 1) as usize;
    let first = le64(s, 9) as usize;
    let second = le64(s, 17) as usize;
    let record = record_bytes(s, 26, byte_at(s, 25) as usize);
    edit(
        room, len, history, used, kind, first, second, record, edition,
    )
}

// How many bytes the first call of s takes.
fn call_size(s: &[u8]) -> usize
    ensures { (1 ≤ result) × (result < 512) }
{
    if byte_at(s, 0) == 0 {
        return 1;
    }
    26 + byte_at(s, 25) as usize
}

// Makes the calls that a list's bytes hold, by one edition.
pub(crate) fn make<W: Write>(
    out: &mut W,
    calls: &[u8],
    room: &mut [u8],
    room_length: usize,
    history: &mut [u8],
    history_length: usize,
    edition: Edition,
) -> io::Result<()>
    requires { length calls.now < 2 ^ 32 }
{
    // No `for`: a call says how many bytes it takes.
    let mut k = 0;
    let mut len = room_length;
    let mut used = history_length;
    while k < calls.len() {
        let s = &calls[k..];
        let answer = call(s, room, len, history, used, edition);
        print::line(out, answer, room, history)?;
        if let Ok(done) = answer {
            len = done.len;
            used = done.used;
        }
        k += call_size(s);
    }
    Ok(())
}
