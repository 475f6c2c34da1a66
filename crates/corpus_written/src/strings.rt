// What stands in a case: strings, each a byte, its length, and then that many bytes; and a room filled with one.
ghost use Rattle.std.specs.Prelude.{◌+◌, ◌<◌, ◌≤◌, ◌^◌, length};

use fields::numbers::byte_at;
use fields::put::put;
use layout::places::record_bytes;

// The string at k.
pub(crate) fn string(case: &[u8], k: usize) -> &[u8]
    requires { k < 2 ^ 33 }
{
    record_bytes(case, k + 1, byte_at(case, k) as usize)
}

// The place past the string at k.
pub(crate) fn past_string(case: &[u8], k: usize) -> usize
    requires { k < 2 ^ 33 }
    ensures { (k < result) × (result < k + 257) }
{
    k + 1 + byte_at(case, k) as usize
}

// Puts bytes at the start of a room and answers how many they are; none where they do not fit.
pub(crate) fn put_first(scratch: &mut [u8], bytes: &[u8]) -> usize
    ensures { result ≤ length scratch.new }
{
    let n = bytes.len();
    if scratch.len() < n {
        return 0;
    }
    put(scratch, 0, bytes);
    n
}
