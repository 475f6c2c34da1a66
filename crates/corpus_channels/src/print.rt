// Numbers as lines have them, and forms of several.
ghost use Rattle.std.specs.Prelude.{◌≤◌, IfOk};

use program_io::print::word;
use std::io::{Result, Write};

// Stands where there is no number. A number below zero stands in two's complement, so every number above this one is such.
pub(crate) const NONE: u64 = 9223372036854775808;

fn digits<W: Write>(out: &mut W, n: u64) -> Result<()> {
    if n < NONE {
        return write!(out, "{n}");
    }
    if n == NONE {
        return word(out, b"none");
    }
    word(out, b"-")?;
    write!(out, "{}", 18446744073709551615 - n + 1)
}

// Prints what a sign of a form stands for, and answers how many numbers that took.
fn sign<W: Write>(out: &mut W, c: u8, numbers: &[u64], k: usize) -> Result<usize>
    ensures { IfOk result (λ n. n ≤ 1) }
{
    if c == b'#' && k < numbers.len() {
        digits(out, numbers[k])?;
        return Ok(1);
    }
    let other = [c];
    word(out, &other)?;
    Ok(0)
}

// Prints a form, in which `#` stands for the next number.
pub(crate) fn form<W: Write>(out: &mut W, form: &[u8], numbers: &[u64]) -> Result<()> {
    let mut k = 0;
    for c in form {
        k += sign(out, *c, numbers, k)?;
    }
    Ok(())
}
