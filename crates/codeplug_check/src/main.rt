// Validates the codeplug on standard input and prints one line: "ok", with the counts of contacts, channels and banks, or the refusal
// and its place. It takes at most 65,536 bytes, and reads addresses by the older edition.
#![tactic(auto)]

ghost use Rattle.std.specs.Prelude.{◌++◌, codes, decimal, OnOk};
ghost use Rattle.std.specs.Io.KnownBytes.{Appends};

use format::refusals::Refusal;
use layout::Counts;
use m17::Edition;
use program_io::input::{LARGE, read_full};
use program_io::print::{number, refused, word};
use std::io;
use std::io::{Read, Write};

fn print_refusal<W: Write>(out: &mut W, n: u8, place: usize) -> io::Result<()>
    ensures { OnOk result (Appends (W.contents out.old) (W.contents out.new) (codes "refused " ++ decimal n ++ codes " at " ++ decimal place ++ codes "\n")) }
{
    refused(out, n, place)?;
    word(out, b"\n")
}

fn print_count<W: Write>(out: &mut W, n: u16) -> io::Result<()>
    ensures { OnOk result (Appends (W.contents out.old) (W.contents out.new) (codes " " ++ decimal n)) }
{
    number(out, b" ", n as u64)
}

fn print_validated<W: Write>(out: &mut W, j: Result<Counts, Refusal>) -> io::Result<()> {
    match j {
        Ok(c) => {
            word(out, b"ok")?;
            print_count(out, c.contacts)?;
            print_count(out, c.channels)?;
            print_count(out, c.banks)?;
            word(out, b"\n")
        }
        Err(refusal) => print_refusal(out, refusal.reason.number(), refusal.place),
    }
}

// Whether the input still has a byte.
fn has_more<R: Read>(input: &mut R) -> io::Result<bool> {
    let mut one = [0u8; 1];
    let n = read_full(input, &mut one)?;
    Ok(0 < n)
}

fn main(rt: HostRuntime) -> io::Result<()> {
    let mut input = rt.reader();
    let mut out = rt.stdout();
    let mut buffer = [0u8; LARGE];
    let n = read_full(&mut input, &mut buffer)?;
    if has_more(&mut input)? {
        return print_refusal(&mut out, 1, 0);
    }
    print_validated(&mut out, validation::validate(&buffer[..n], Edition::Older))
}
