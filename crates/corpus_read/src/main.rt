// Answers the cases of a corpus of files validated, contacts read and texts to numbers on standard input, one line each, as the second program
// writes them (tests/second/README.md).
#![tactic(auto)]

mod contacts; // contacts.rt: contacts read

use fields::numbers::byte_at;
use layout::places::record_bytes;
use m17::{Edition, edition_of};
use program_io::input::{LARGE, case};
use program_io::print;
use std::io::{Read, Result, Write};

fn validate<W: Write>(out: &mut W, file: &[u8], edition: Edition) -> Result<()> {
    match validation::validate(file, edition) {
        Ok(c) => {
            print::number(out, b"ok ", c.contacts as u64)?;
            print::number(out, b" ", c.channels as u64)?;
            print::number(out, b" ", c.banks as u64)
        }
        Err(refusal) => print::refused(out, refusal.reason.number(), refusal.place),
    }
}

fn encode<W: Write>(out: &mut W, text: &[u8], edition: Edition) -> Result<()> {
    match m17_encoder::encode(text, edition) {
        Ok(n) => print::number(out, b"number ", n),
        Err(refusal) => print::refused(out, refusal.reason.number(), refusal.place),
    }
}

// By the sort and the edition that the first byte of a case says. Behind it stands a file, or a byte that says "read" and a record or text.
fn answer<W: Write>(out: &mut W, case: &[u8]) -> Result<()> {
    let first = byte_at(case, 0);
    let edition = edition_of((first / 4) as u32);
    let sort = first % 4;
    if sort == 0 {
        validate(out, record_bytes(case, 1, 65536), edition)
    } else if sort == 1 {
        contacts::read(out, record_bytes(case, 2, 65536), edition)
    } else {
        encode(out, record_bytes(case, 2, 65536), edition)
    }
}

// Whether there was a case.
fn one_case<R: Read, W: Write>(input: &mut R, out: &mut W, buffer: &mut [u8]) -> Result<bool> {
    let n = case(input, buffer)?;
    if n == 0 {
        return Ok(false);
    }
    answer(out, &buffer[..n])?;
    print::word(out, b"\n")?;
    Ok(true)
}

fn main(rt: HostRuntime) -> Result<()> {
    let mut input = rt.reader();
    let mut out = rt.stdout();
    let mut buffer = [0u8; LARGE];
    for _ in 0..1_000_000 {
        if !one_case(&mut input, &mut out, &mut buffer)? {
            break;
        }
    }
    out.flush()
}
