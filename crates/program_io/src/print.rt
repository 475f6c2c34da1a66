// Words, numbers and bytes, as lines have them. The error is the first that a write gives.
ghost use Rattle.std.specs.Prelude.{◌≡◌, ◌<◌, ◌++◌, codes, decimal, length, OnOk};
ghost use Rattle.std.specs.Io.KnownBytes.{Appends};
ghost use Rattle.fields.specs.Bytes.{part};
ghost use Rattle.text.specs.Text.{text_of};
ghost use Rattle.program_io.specs.Lines.{hex_byte, hex_bytes, hex_or_hyphen, checksum_from};

use layout::places::record_bytes;
use std::io::{Result, Write};
use text::text_length;

pub fn word<W: Write>(out: &mut W, s: &[u8]) -> Result<()>
    ensures { OnOk result (Appends (W.contents out.old) (W.contents out.new) s.now) }
{
    out.write_all(s)
}

// A number after what says which.
pub fn number<W: Write>(out: &mut W, label: &[u8], n: u64) -> Result<()>
    ensures { OnOk result (Appends (W.contents out.old) (W.contents out.new) (label.now ++ decimal n)) }
{
    word(out, label)?;
    write!(out, "{n}")
}

pub fn refused<W: Write>(out: &mut W, n: u8, place: usize) -> Result<()>
    ensures { OnOk result (Appends (W.contents out.old) (W.contents out.new) (codes "refused " ++ decimal n ++ codes " at " ++ decimal place)) }
{
    number(out, b"refused ", n as u64)?;
    number(out, b" at ", place as u64)
}

// Two digits for each byte, or a hyphen for no bytes.
pub fn bytes<W: Write>(out: &mut W, s: &[u8]) -> Result<()>
    ensures { OnOk result (Appends (W.contents out.old) (W.contents out.new) (hex_or_hyphen s.now)) }
{
    if s.len() == 0 {
        return word(out, b"-");
    }
    digits(out, s)
}

fn digits<W: Write>(out: &mut W, s: &[u8]) -> Result<()>
    ensures { OnOk result (Appends (W.contents out.old) (W.contents out.new) (hex_bytes s.now)) }
{
    for b in s {
        two_digits(out, *b)?;
    }
    Ok(())
}

#[tactic(auto, using(std::proofs::lemmas::Fmt::hex_byte))]
fn two_digits<W: Write>(out: &mut W, b: u8) -> Result<()>
    ensures { OnOk result (Appends (W.contents out.old) (W.contents out.new) (hex_byte b)) }
{
    write!(out, "{b:02x}")
}

// A text field's bytes without its padding.
pub fn text<W: Write>(out: &mut W, label: &[u8], field: &[u8]) -> Result<()>
    ensures { OnOk result (Appends (W.contents out.old) (W.contents out.new)
        (label.now ++ hex_or_hyphen (part field.now 0 (length (text_of field.now))))) }
{
    word(out, label)?;
    bytes(out, record_bytes(field, 0, text_length(field)))
}

// A sum that tells buffers apart.
pub fn checksum(s: &[u8]) -> u64
    ensures value { result ≡ checksum_from 0 s.now }
    ensures bound { result < 2147483647 }
{
    let mut h = 0u64;
    for b in s {
        h = (h * 257 + *b as u64 + 1) % 2147483647;
    }
    h
}
