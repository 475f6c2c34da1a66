// Numbers in groups of seven bits, low group first, top bit set on all but the last, shortest form only, at most 1,048,576.
#![tactic(auto)]

ghost use Rattle.std.specs.Prelude.{◌≡◌, ◌+◌, ◌≤◌, length, drop};
ghost use Rattle.fields.specs.Bytes.{over};
ghost use Rattle.varint.specs.Number.{number_bytes, number_at};

// A number and how many bytes it takes.
#[derive(Clone, Copy, Debug, PartialEq, Eq)]
pub struct Number {
    pub value: usize,
    pub size: usize,
}

pub const MAX_NUMBER: usize = 1_048_576;

// The number at place k.
#[tactic(auto, using(crate::proofs::CodeLaws::readings))]
pub fn number_at(s: &[u8], k: usize) -> Option<Number>
    ensures { result ≡ number_at (drop k s.now) }
{
    let a = *s.get(k)?;
    if a < 128 {
        return Some(Number {
            value: a as usize,
            size: 1,
        });
    }
    let b = *s.get(k + 1)?;
    if b < 128 {
        if b == 0 {
            return None;
        }
        return Some(Number {
            value: (a - 128) as usize + 128 * (b as usize),
            size: 2,
        });
    }
    let c = *s.get(k + 2)?;
    if c == 0 || 128 <= c {
        return None;
    }
    let value = (a - 128) as usize + 128 * ((b - 128) as usize + 128 * (c as usize));
    if MAX_NUMBER < value {
        return None;
    }
    Some(Number { value, size: 3 })
}

// How many bytes a number takes.
#[tactic(auto, using(crate::proofs::Laws::sizes))]
pub fn number_length(x: usize) -> usize
    requires { x ≤ 1048576 }
    ensures { result ≡ length (number_bytes x) }
{
    match x {
        ..128 => 1,
        128..16_384 => 2,
        _ => 3,
    }
}

// Writes a number at place k.
#[tactic(auto, using(crate::proofs::CodeLaws::written))]
pub fn put_number(d: &mut [u8], k: usize, x: usize)
    requires { (x ≤ 1048576) × (k + length (number_bytes x) ≤ length d.old) }
    ensures { d.new ≡ over d.old k (number_bytes x) }
{
    if x < 128 {
        d[k] = x as u8;
        return;
    }
    d[k] = (128 + x % 128) as u8;
    if x < 16384 {
        d[k + 1] = (x / 128) as u8;
        return;
    }
    d[k + 1] = (128 + x / 128 % 128) as u8;
    d[k + 2] = (x / 16384) as u8;
}
