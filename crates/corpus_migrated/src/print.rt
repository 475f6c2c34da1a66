// The line of a case: the answer, and a sum over the whole file after the call.
use format::refusals::Refusal;
use layout::Counts;
use program_io::print::{checksum, number, refused, word};
use std::io;
use std::io::Write;

fn words<W: Write>(out: &mut W, a: Result<Counts, Refusal>) -> io::Result<()> {
    match a {
        Ok(c) => {
            number(out, b"ok ", c.contacts as u64)?;
            number(out, b" ", c.channels as u64)?;
            number(out, b" ", c.banks as u64)
        }
        Err(refusal) => refused(out, refusal.reason.number(), refusal.place),
    }
}

pub(crate) fn line<W: Write>(
    out: &mut W,
    a: Result<Counts, Refusal>,
    file: &[u8],
) -> io::Result<()> {
    words(out, a)?;
    number(out, b" file ", checksum(file))?;
    word(out, b"\n")
}
