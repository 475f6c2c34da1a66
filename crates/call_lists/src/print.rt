// The line of a call.
use format::refusals::Refusal;
use journal::answer::Done;
use program_io::print::{checksum, number, refused, word};
use std::io;
use std::io::Write;

fn words<W: Write>(out: &mut W, a: Result<Done, Refusal>) -> io::Result<()> {
    match a {
        Ok(done) => {
            number(out, b"done ", done.len as u64)?;
            number(out, b" ", done.used as u64)?;
            number(out, b" ", done.entries as u64)
        }
        Err(refusal) => refused(out, refusal.reason.number(), refusal.place),
    }
}

// A call's answer, and both whole buffers after it.
pub(crate) fn line<W: Write>(
    out: &mut W,
    a: Result<Done, Refusal>,
    room: &[u8],
    history: &[u8],
) -> io::Result<()> {
    words(out, a)?;
    number(out, b" room ", checksum(room))?;
    number(out, b" history ", checksum(history))?;
    word(out, b"\n")
}
