// A call's answer and a whole buffer, as lines have them.
use format::refusals::Refusal;
use program_io::print::{bytes, refused, word};
use std::io;
use std::io::Write;

pub(crate) fn validity<W: Write>(out: &mut W, v: Result<(), Refusal>) -> io::Result<()> {
    match v {
        Ok(()) => word(out, b"wrote"),
        Err(refusal) => refused(out, refusal.reason.number(), refusal.place),
    }
}

// A whole buffer after a call, and the line's end.
pub(crate) fn buffer<W: Write>(out: &mut W, room: &[u8]) -> io::Result<()> {
    word(out, b" ")?;
    bytes(out, room)?;
    word(out, b"\n")
}
