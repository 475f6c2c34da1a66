// A text to its field of 32 bytes: a buffer that is too short, then the text; a refusal changes nothing.
#![tactic(auto)]

ghost use Rattle.std.specs.Prelude.{◌≡◌, true, length};
ghost use Rattle.text.specs.Text.{given_ok, padded};
ghost use Rattle.text_writer.specs.Field.{text_write_rule, text_written};

use fields::put::put;
use fields::rule::unless;
use format::refusals::{Reason, Refusal};
use format::sizes::TEXT_SIZE;
use text::given_ok;

// What the writer refuses of this text and a buffer of so many bytes.
#[tactic(auto, unfolding(crate::specs::Field::text_write_rule), using(fields::proofs::Laws::ok_then, fields::proofs::Laws::err_then))]
fn validate(size: usize, text: &[u8]) -> Result<(), Refusal>
    ensures { result ≡ text_write_rule size text.now }
{
    unless(TEXT_SIZE <= size, Reason::ShortBuffer, 0)?;
    unless(given_ok(text), Reason::Text, 0)
}

// The field, from zeros, so that the padding comes out zero.
fn field_bytes(text: &[u8]) -> [u8; TEXT_SIZE]
    requires { given_ok text.now ≡ true }
    ensures { result ≡ padded text.now }
{
    let mut r = [0u8; TEXT_SIZE];
    put(&mut r, 0, text);
    r
}

// Writes a text's field over the beginning of a buffer.
#[tactic(auto, unfolding(crate::specs::Field::text_written), using(fields::proofs::Laws::written_ok, fields::proofs::Laws::written_err, crate::proofs::Laws::rule_room, crate::proofs::Laws::rule_given, crate::proofs::Laws::field_fits))]
pub fn write(out: &mut [u8], text: &[u8]) -> Result<(), Refusal>
    ensures { (result ≡ text_write_rule (length out.old) text.now) × (out.new ≡ text_written out.old text.now) }
{
    validate(out.len(), text)?;
    let r = field_bytes(text);
    put(out, 0, &r);
    Ok(())
}
