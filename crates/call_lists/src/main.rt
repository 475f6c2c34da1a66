// Makes the lists of calls of a corpus on standard input, one line for each call, as the second program writes them (tests/second/README.md).
#![tactic(auto)]

mod calls; // calls.rt: the calls of a list
mod print; // print.rt: the line of a call

use fields::numbers::{le32, le64};
use m17::edition_of;
use program_io::input::{LARGE, bytes, read_full};
use std::io;
use std::io::{Read, Write};

// Reads the room, the history and the calls of a list with these numbers (its length; the sizes of the three; the edition; the two lengths), makes the
// calls, and answers whether there were any.
fn with_numbers<R: Read, W: Write>(
    input: &mut R,
    out: &mut W,
    numbers: &[u8],
    room: &mut [u8],
    history: &mut [u8],
    calls: &mut [u8],
) -> io::Result<bool> {
    let n = bytes(input, le32(numbers, 4), room)?;
    let m = bytes(input, le32(numbers, 8), history)?;
    let k = bytes(input, le32(numbers, 12), calls)?;
    calls::make(
        out,
        &calls[..k],
        &mut room[..n],
        le64(numbers, 20) as usize,
        &mut history[..m],
        le64(numbers, 28) as usize,
        edition_of(le32(numbers, 16)),
    )?;
    Ok(0 < k)
}

// Whether there was a list. Past the end of the input every number is 0.
fn one_list<R: Read, W: Write>(
    input: &mut R,
    out: &mut W,
    room: &mut [u8],
    history: &mut [u8],
) -> io::Result<bool> {
    let mut numbers = [0u8; 36];
    read_full(input, &mut numbers)?;
    let mut calls = [0u8; LARGE];
    with_numbers(input, out, &numbers, room, history, &mut calls)
}

fn main(rt: HostRuntime) -> io::Result<()> {
    let mut input = rt.reader();
    let mut out = rt.stdout();
    let mut room = [0u8; LARGE];
    let mut history = [0u8; LARGE];
    for _ in 0..1_000_000 {
        if !one_list(&mut input, &mut out, &mut room, &mut history)? {
            break;
        }
    }
    out.flush()
}
