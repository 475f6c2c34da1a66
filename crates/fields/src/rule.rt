// The first bad field answers (document 01, "The refusals, by number").
ghost use Rattle.std.specs.Prelude.{◌≡◌, cond, ◌+◌, ◌<◌, ◌^◌};
ghost use Rattle.fields.specs.Rule.{unless, field_of};

use format::refusals::{Reason, Refusal};

// a where the test holds, else b; without a branch.
pub fn pick(test: bool, a: bool, b: bool) -> bool
    ensures { result ≡ cond test a b }
{
    (test & a) | (!test & b)
}

// A refusal, unless the test holds.
pub fn unless(ok: bool, reason: Reason, place: usize) -> Result<(), Refusal>
    ensures { result ≡ unless ok reason place }
{
    if ok {
        Ok(())
    } else {
        Err(Refusal { reason, place })
    }
}

// The field of n bytes at k of a record that starts at base and has so many bytes left.
pub fn field(
    left: usize,
    base: usize,
    k: usize,
    n: usize,
    reason: Reason,
    ok: bool,
) -> Result<(), Refusal>
    requires { (base < 2 ^ 62) × ((k < 2 ^ 32) × (n < 2 ^ 32)) }
    ensures { result ≡ field_of left base k n reason ok }
{
    if k + n <= left {
        unless(ok, reason, base + k)
    } else {
        Err(Refusal {
            reason: Reason::Cut,
            place: base + k,
        })
    }
}
