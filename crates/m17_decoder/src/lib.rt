// An address number to its callsign's text (document 01, "M17 addresses"; document 02, [10]).
#![tactic(auto)]

ghost use Rattle.std.specs.Prelude.{◌≡◌, ◌++◌, ◌-◌, ◌<◌, ◌≤◌, length, drop, replicate};
ghost use Rattle.m17.specs.Address.{decoding, decoded_into, text_for};
ghost use Rattle.m17_decoder.specs.Begin.{Begun};

use format::refusals::{Reason, Refusal};
use m17::{BROADCAST, Decoded, Edition, FIRST_HASH, LAST_PLAIN, is_callsign};
use m17_groups::{character, while_rest};

// Where a text that is begun goes on: how many characters are written, and the number whose text is to follow.
#[derive(Clone, Copy)]
struct Start {
    len: usize,
    rest: u64,
}

// How a number's text begins: a hash address's with its hash sign, any other with nothing yet.
fn begin(n: u64, out: &mut [u8]) -> Start
    requires { 9 ≤ length out.old }
    ensures { Begun n out.old out.new result.len result.len result.rest }
{
    if n <= LAST_PLAIN {
        return Start { len: 0, rest: n };
    }
    out[0] = b'#';
    Start {
        len: 1,
        rest: n - FIRST_HASH,
    }
}

// A number's text and zeros after it, into the first nine bytes; how many characters there are. No branch hangs on where the text ends.
fn write_text(n: u64, out: &mut [u8]) -> usize
    requires { 9 ≤ length out.old }
    ensures { (result ≡ length (text_for n)) × (out.new ≡ text_for n ++ (replicate (9 - length (text_for n)) 0 ++ drop 9 out.old)) }
{
    let characters = m17_groups::table::characters();
    let start = begin(n, out);
    let mut len = start.len;
    let mut rest = start.rest;
    for i in start.len..9 {
        out[i] = while_rest(rest, character(&characters, (rest % 40) as u8));
        len += while_rest(rest, 1) as usize;
        rest /= 40;
    }
    len
}

// A number's text, into the first nine bytes of a buffer.
pub fn decode(n: u64, out: &mut [u8], edition: Edition) -> Result<Decoded, Refusal>
    ensures { (result ≡ decoding edition (length out.old) n) × (out.new ≡ decoded_into edition out.old n) }
{
    if out.len() < 9 {
        return Err(Refusal {
            reason: Reason::CallsignBuffer,
            place: 0,
        });
    }
    if is_callsign(n, edition) {
        return Ok(Decoded::Text(write_text(n, out)));
    }
    if n == BROADCAST {
        return Ok(Decoded::Broadcast);
    }
    Err(Refusal {
        reason: Reason::AddressNumber,
        place: 0,
    })
}
