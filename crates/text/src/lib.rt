// Text fields (document 01, "The file"): bytes 0x20 to 0x7E, then zeros.
#![tactic(auto)]

ghost use Rattle.std.specs.Prelude.{◌≡◌, true, ◌+◌, ◌<◌, ◌≤◌, ◌^◌, length};
ghost use Rattle.fields.specs.Bytes.{part};
ghost use Rattle.text.specs.Text.{text_ok, text_of, given_ok, plain_text};
ghost use Rattle.fields.specs.Rule.{field};
ghost use Rattle.text.specs.Scan.{step_fault};

use fields::rule::unless;
use format::refusals::{Reason, Refusal};

// 1 where byte b may not follow prev in a text field, else 0. No branch, so that the loop over a field vectorises.
#[tactic(auto, unfolding(crate::specs::Scan::step_fault, crate::specs::Scan::fault_after, crate::specs::Text::printable))]
fn step_fault(prev: u8, b: u8) -> u8
    ensures { (result ≡ step_fault prev b) × (result ≤ 1) }
{
    let after_end = (prev == 0) & (b != 0);
    let foreign = (b != 0) & ((b < 32) | (126 < b));
    (after_end | foreign) as u8
}

// Whether a field's 32 bytes are a text and then zeros.
pub fn text_ok(s: &[u8]) -> bool
    requires { length s.now ≡ 32 }
    ensures { result ≡ text_ok s.now }
{
    let mut faults = 0u8;
    let mut prev = 32u8;
    for b in &s[..32] {
        faults += step_fault(prev, *b);
        prev = *b;
    }
    faults == 0
}

// The text field at k of a record s that starts at base.
#[tactic(auto, unfolding(fields::specs::Rule::field_of))]
pub fn text_field(s: &[u8], base: usize, k: usize) -> Result<(), Refusal>
    requires { (base < 2 ^ 62) × (k < 2 ^ 32) }
    ensures { result ≡ field s.now base k 32 Reason.Text (text_ok (part s.now k 32)) }
{
    if k + 32 <= s.len() {
        unless(text_ok(&s[k..k + 32]), Reason::Text, base + k)
    } else {
        Err(Refusal {
            reason: Reason::Cut,
            place: base + k,
        })
    }
}

// Whether bytes are a text, with nothing after it.
fn plain_text(s: &[u8]) -> bool
    ensures { result ≡ plain_text s.now }
{
    s.iter().all(|b| (32..=126).contains(b))
}

// Whether a writer may take this text.
#[tactic(auto, unfolding(crate::specs::Text::given_ok))]
pub fn given_ok(s: &[u8]) -> bool
    ensures { result ≡ given_ok s.now }
{
    s.len() <= 32 && plain_text(s)
}

// How long the text of a field is: what stands before its first zero.
pub fn text_length(s: &[u8]) -> usize
    ensures { result ≡ length (text_of s.now) }
{
    s.iter().position(|b| *b == 0).unwrap_or(s.len())
}
