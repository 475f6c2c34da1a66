// The empty codeplug written: its header alone; a refusal changes nothing.
#![tactic(auto)]

ghost use Rattle.std.specs.Prelude.{◌≡◌, length};
ghost use Rattle.empty_codeplug.specs.Empty.{empty_codeplug, empty_write_rule, empty_written};

use fields::put::{put, put_le16, put_le32};
use fields::rule::unless;
use format::header::{FILE_VERSION, MAGIC_NUMBER};
use format::refusals::{Reason, Refusal};
use format::sizes::HEADER_SIZE;

// The header, from zeros: the magic number and the version.
fn header_bytes() -> [u8; HEADER_SIZE]
    ensures { result ≡ empty_codeplug }
{
    let mut r = [0u8; HEADER_SIZE];
    put_le32(&mut r, 0, MAGIC_NUMBER as u32);
    put_le16(&mut r, 8, FILE_VERSION);
    r
}

// Writes the empty codeplug over the beginning of a buffer.
#[tactic(auto, unfolding(crate::specs::Empty::empty_written, crate::specs::Empty::empty_write_rule), using(fields::proofs::Laws::written_ok, fields::proofs::Laws::written_err, crate::proofs::Laws::rule_room, crate::proofs::Laws::length_empty))]
pub fn write(out: &mut [u8]) -> Result<(), Refusal>
    ensures { (result ≡ empty_write_rule (length out.old)) × (out.new ≡ empty_written out.old) }
{
    unless(HEADER_SIZE <= out.len(), Reason::ShortBuffer, 0)?;
    let r = header_bytes();
    put(out, 0, &r);
    Ok(())
}
