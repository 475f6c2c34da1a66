// Other bytes in place of some of a buffer's content.
ghost use Rattle.std.specs.Prelude.{◌≡◌, ◌+◌, ◌≤◌, length};
ghost use Rattle.buffers.specs.Splice.{spliced};

use crate::block::{clear, move_down, move_up};
use fields::put::put;

fn grow(d: &mut [u8], len: usize, p: usize, k: usize, s: &[u8])
    requires { ((p + k ≤ len) × (len ≤ length d.old)) × ((len + length s.now ≤ length d.old + k) × (k ≤ length s.now)) }
    ensures { d.new ≡ spliced d.old len p k s.now }
{
    move_up(d, p + k, len - (p + k), s.len() - k);
    put(d, p, s);
}

fn shrink(d: &mut [u8], len: usize, p: usize, k: usize, s: &[u8])
    requires { ((p + k ≤ len) × (len ≤ length d.old)) × (length s.now ≤ k) }
    ensures { d.new ≡ spliced d.old len p k s.now }
{
    let by = k - s.len();
    move_down(d, p + k, len - (p + k), by);
    put(d, p, s);
    clear(d, len - by, by);
}

// Puts s in place of the k bytes at p of a content of len bytes.
pub fn splice(d: &mut [u8], len: usize, p: usize, k: usize, s: &[u8])
    requires { ((p + k ≤ len) × (len ≤ length d.old)) × (len + length s.now ≤ length d.old + k) }
    ensures { d.new ≡ spliced d.old len p k s.now }
{
    if k <= s.len() {
        grow(d, len, p, k, s);
    } else {
        shrink(d, len, p, k, s);
    }
}
