// Answers the cases of a corpus of channels read on standard input, one line each, as the second program writes them (tests/second/README.md).
#![tactic(auto)]

mod channels; // channels.rt: channels read
mod print; // print.rt: numbers, and forms of several

use layout::places::record_bytes;
use program_io::input::{LARGE, case};
use program_io::print::word;
use std::io::{Read, Result, Write};

// Whether there was a case: a byte that says that it is a channel, one that says "read", and the record.
fn one_case<R: Read, W: Write>(input: &mut R, out: &mut W, buffer: &mut [u8]) -> Result<bool> {
    let n = case(input, buffer)?;
    if n == 0 {
        return Ok(false);
    }
    channels::read(out, record_bytes(&buffer[..n], 2, 65536))?;
    word(out, b"\n")?;
    Ok(true)
}

fn main(rt: HostRuntime) -> Result<()> {
    let mut input = rt.reader();
    let mut out = rt.stdout();
    let mut buffer = [0u8; LARGE];
    for _ in 0..1_000_000 {
        if !one_case(&mut input, &mut out, &mut buffer)? {
            break;
        }
    }
    out.flush()
}
