// Answers the cases of a corpus of records written and numbers to texts on standard input, one line each, as the second program writes them
// (tests/second/README.md).
#![tactic(auto)]

mod channels; // channels.rt: a channel to write
mod contacts; // contacts.rt: a contact to write
mod print; // print.rt: a call's answer, and a whole buffer
mod strings; // strings.rt: the strings in a case

ghost use Rattle.std.specs.Prelude.{◌<◌};

use crate::strings::{past_string, put_first, string};
use fields::numbers::{byte_at, le64};
use format::refusals::Refusal;
use layout::places::record_bytes;
use m17::{Decoded, Edition, edition_of};
use program_io::input::case;
use program_io::print::{refused, word};
use std::io;
use std::io::{Read, Write};

fn decoded<W: Write>(out: &mut W, d: Result<Decoded, Refusal>) -> io::Result<()> {
    match d {
        Ok(Decoded::Text(_)) => word(out, b"text"),
        Ok(Decoded::Broadcast) => word(out, b"broadcast"),
        Err(refusal) => refused(out, refusal.reason.number(), refusal.place),
    }
}

// The edition that the first byte of a case says beside its sort.
fn edition_at(case: &[u8]) -> Edition {
    edition_of((byte_at(case, 0) / 4) as u32)
}

// A number's text, over a buffer.
fn decode<W: Write>(out: &mut W, n: u64, room: &mut [u8], edition: Edition) -> io::Result<()> {
    decoded(out, m17_decoder::decode(n, room, edition))?;
    print::buffer(out, room)
}

// The record that stands in a case from k on, over a buffer.
fn record(case: &[u8], k: usize, room: &mut [u8]) -> Result<(), Refusal>
    requires { k < 300 }
{
    if byte_at(case, 0) % 4 == 1 {
        return contacts::write(case, k, room, edition_at(case));
    }
    channels::write(case, k, room)
}

// The same, with its line.
fn write<W: Write>(out: &mut W, case: &[u8], k: usize, room: &mut [u8]) -> io::Result<()>
    requires { k < 300 }
{
    print::validity(out, record(case, k, room))?;
    print::buffer(out, room)
}

// A record stands behind the output buffer before the call, a number before the text buffer.
fn answer<W: Write>(out: &mut W, case: &[u8], scratch: &mut [u8]) -> io::Result<()> {
    if byte_at(case, 0) % 4 < 3 {
        let n = put_first(scratch, string(case, 2));
        write(out, case, past_string(case, 2), &mut scratch[..n])
    } else {
        let n = put_first(scratch, record_bytes(case, 10, 65536));
        let edition = edition_at(case);
        decode(out, le64(case, 2), &mut scratch[..n], edition)
    }
}

// Whether there was a case.
fn one_case<R: Read, W: Write>(
    input: &mut R,
    out: &mut W,
    buffer: &mut [u8],
    scratch: &mut [u8],
) -> io::Result<bool> {
    let n = case(input, buffer)?;
    if n == 0 {
        return Ok(false);
    }
    answer(out, &buffer[..n], scratch)?;
    Ok(true)
}

fn main(rt: HostRuntime) -> io::Result<()> {
    let mut input = rt.reader();
    let mut out = rt.stdout();
    let mut buffer = [0u8; 4096];
    let mut scratch = [0u8; 4096];
    for _ in 0..1_000_000 {
        if !one_case(&mut input, &mut out, &mut buffer, &mut scratch)? {
            break;
        }
    }
    out.flush()
}
