// A callsign's text to its number (document 01, "M17 addresses"; document 02, [10]).
#![tactic(auto)]

mod table; // table.rt: the digits of characters

ghost use Rattle.std.specs.Prelude.{◌≡◌, cond, ◌+◌, ◌-◌, ◌<◌, ◌≤◌, ltb, length, get_or, MatchResult};
ghost use Rattle.m17.specs.Address.{digit_of, address_of, first_foreign, hash_sign, encoding};
ghost use Rattle.fields.specs.Table.{Table};
ghost use Rattle.m17_encoder.specs.Texts.{OneToNine};

use format::refusals::{Reason, Refusal};
use m17::{Edition, FIRST_HASH};

// The digit of a character, 40 for a foreign one, by the table of digits.
fn digit(digits: &[u8; 59], c: u8) -> u8
    requires { Table digit_of 32 59 digits.now }
    ensures { (result ≡ digit_of c) × (result ≤ 40) }
{
    if c < b' ' || b'Z' < c {
        return 40;
    }
    digits[(c - b' ') as usize]
}

// The position of the first foreign character, or the length where there is none.
fn first_foreign(s: &[u8]) -> usize
    ensures { result ≡ first_foreign s.now }
{
    let digits = table::digits();
    s.iter()
        .position(|c| digit(&digits, *c) == 40)
        .unwrap_or(s.len())
}

// A number below n, and 0 for any other.
fn below(i: usize, n: usize, x: usize) -> usize
    ensures { result ≡ cond (ltb i n) x 0 }
{
    if i < n { x } else { 0 }
}

// Why a text has no sum: a character is foreign. An Option in place of the Result made the sum a tenth slower.
#[derive(Clone, Copy)]
struct Foreign;

// The sum of digit × 40^position, by the table of digits, unless a character is foreign. It goes through nine places whatever the length, so that no branch
// depends on it: a place past the text counts 0, and looks at the first character again.
fn number(digits: &[u8; 59], s: &[u8]) -> Result<u64, Foreign>
    requires { Table digit_of 32 59 digits.now × OneToNine s.now }
    ensures { MatchResult result (λ n. (length s.now ≤ first_foreign s.now) × (n ≡ address_of s.now)) (λ e. first_foreign s.now < length s.now) }
{
    let n = s.len();
    let mut sum = 0u64;
    for i in (0..9).rev() {
        let d = digit(digits, s[below(i, n, i)]);
        if d == 40 {
            return Err(Foreign);
        }
        sum = sum * 40 + below(i, n, d as usize) as u64;
    }
    Ok(sum)
}

// A text that begins with a hash sign: by the newer edition a hash address's, by the older the sign is foreign.
fn with_sign(digits: &[u8; 59], s: &[u8], edition: Edition) -> Result<u64, Refusal>
    requires { Table digit_of 32 59 digits.now × (OneToNine s.now × (get_or s.now 0 0 ≡ hash_sign)) }
    ensures { result ≡ encoding edition s.now }
{
    if let Edition::Older = edition {
        return Err(Refusal {
            reason: Reason::CallsignForeign,
            place: 0,
        });
    }
    let text = &s[1..];
    if text.is_empty() {
        return Ok(FIRST_HASH);
    }
    match number(digits, text) {
        Err(Foreign) => Err(Refusal {
            reason: Reason::CallsignForeign,
            place: 1 + first_foreign(text),
        }),
        Ok(sum) => {
            if s[s.len() - 1] == b' ' {
                Err(Refusal {
                    reason: Reason::CallsignSpace,
                    place: 0,
                })
            } else {
                Ok(FIRST_HASH + sum)
            }
        }
    }
}

// A callsign's number. Only where the text begins with a hash sign does the edition matter.
pub fn encode(s: &[u8], edition: Edition) -> Result<u64, Refusal>
    ensures { result ≡ encoding edition s.now }
{
    let n = s.len();
    if n == 0 || 9 < n {
        return Err(Refusal {
            reason: Reason::CallsignLength,
            place: 0,
        });
    }
    let digits = table::digits();
    if s[0] == b'#' {
        return with_sign(&digits, s, edition);
    }
    match number(&digits, s) {
        Err(Foreign) => Err(Refusal {
            reason: Reason::CallsignForeign,
            place: first_foreign(s),
        }),
        Ok(sum) => {
            if s[n - 1] == b' ' {
                Err(Refusal {
                    reason: Reason::CallsignSpace,
                    place: 0,
                })
            } else {
                Ok(sum)
            }
        }
    }
}
