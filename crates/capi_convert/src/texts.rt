// A record's texts into a lent buffer: 25 where it is too short, then the record's own refusal; beside one it stays as lent.
ghost use Rattle.std.specs.Prelude.{◌≡◌, ◌+◌, ◌≤◌, length};
ghost use Rattle.fields.specs.Bytes.{part, over};
ghost use Rattle.capi_convert.specs.Texts.{TextsPut};
ghost use Rattle.fields.specs.Rule.{Valid};

use fields::rule::unless;
use format::refusals::{Reason, Refusal};
use format::sizes::{TEXT_SIZE, TEXTS_SIZE};

// The 32 bytes of s at k, over the buffer from place `at` on. They go by value: what is copied byte by byte between two lent slices, which
// might overlap for all that the compiler knows, is not made a copy of blocks.
fn put_text(out: &mut [u8], at: usize, s: &[u8], k: usize)
    requires { (at + 32 ≤ length out.old) × (k + 32 ≤ length s.now) }
    ensures { out.new ≡ over out.old at (part s.now k 32) }
{
    let text = fields::put::bytes32(s, k);
    fields::put::put(out, at, &text);
}

// The text that a record begins with.
#[tactic(auto, unfolding(fields::specs::Rule::written), using(crate::proofs::Laws::has_room, fields::proofs::Laws::ok_then, fields::proofs::Laws::err_then))]
pub(crate) fn put_name(out: &mut [u8], v: Result<(), Refusal>, s: &[u8]) -> Result<(), Refusal>
    requires { v ≡ Valid → 32 ≤ length s.now }
    ensures { TextsPut 32 (part s.now 0 32) v out.old result out.new }
{
    unless(TEXT_SIZE <= out.len(), Reason::ShortBuffer, 0)?;
    v?;
    put_text(out, 0, s, 0);
    Ok(())
}

// The two texts at k, one behind the other.
#[tactic(auto, unfolding(fields::specs::Rule::written), using(crate::proofs::Laws::has_room, crate::proofs::Laws::both_texts, fields::proofs::Laws::ok_then, fields::proofs::Laws::err_then))]
pub(crate) fn put_texts(
    out: &mut [u8],
    v: Result<(), Refusal>,
    s: &[u8],
    k: usize,
) -> Result<(), Refusal>
    requires { v ≡ Valid → k + 64 ≤ length s.now }
    ensures { TextsPut 64 (part s.now k 64) v out.old result out.new }
{
    unless(TEXTS_SIZE <= out.len(), Reason::ShortBuffer, 0)?;
    v?;
    put_text(out, 0, s, k);
    put_text(out, 32, s, k + 32);
    Ok(())
}
