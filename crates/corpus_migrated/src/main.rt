// Migrates the files of a corpus on standard input, one line each, as the second program writes them (tests/second/README.md).
#![tactic(auto)]

mod print; // print.rt: the line of a case

use fields::numbers::{byte_at, le32};
use m17::{Edition, edition_of};
use program_io::input::{LARGE, bytes, read_full};
use std::io;
use std::io::{Read, Write};

fn migrate<W: Write>(out: &mut W, file: &mut [u8], edition: Edition) -> io::Result<()> {
    let answer = migration::migrate(file, edition);
    print::line(out, answer, file)
}

// Whether there was a case: a length of four bytes, low byte first, the edition's byte and then a file, which may be empty. The length counts the edition.
fn one_case<R: Read, W: Write>(input: &mut R, out: &mut W, buffer: &mut [u8]) -> io::Result<bool> {
    let mut head = [0u8; 5];
    let got = read_full(input, &mut head)?;
    if got < 5 {
        return Ok(false);
    }
    let size = le32(&head, 0);
    if size == 0 {
        return Ok(false);
    }
    let n = bytes(input, size - 1, buffer)?;
    let edition = edition_of(byte_at(&head, 4) as u32);
    migrate(out, &mut buffer[..n], edition)?;
    Ok(true)
}

fn main(rt: HostRuntime) -> io::Result<()> {
    let mut input = rt.reader();
    let mut out = rt.stdout();
    let mut buffer = [0u8; LARGE];
    for _ in 0..1_000_000 {
        if !one_case(&mut input, &mut out, &mut buffer)? {
            break;
        }
    }
    out.flush()
}
