// An entry's m bytes put in place of k bytes of a codeplug, validated, and taken out again where the result is refused. The bytes that leave
// stand meanwhile in the entry and, where they are more, behind the codeplug.
ghost use Rattle.std.specs.Prelude.{◌+◌, ◌≤◌, ◌<◌, length};
ghost use Rattle.undo.specs.Undo.{Tried};

use buffers::block::clear;
use m17::Edition;
use rotation::{rotate, swap};
use validation::validity_of;

// At least as many bytes come as leave: spare bytes are rotated to the front of what lies behind, then all are swapped.
fn revert_longer(
    room: &mut [u8],
    len: usize,
    p: usize,
    k: usize,
    history: &mut [u8],
    body: usize,
    m: usize,
    edition: Edition,
) -> bool
    requires { ((p + k ≤ len) × (len ≤ length room.old)) × (((len + m ≤ length room.old + k) × (k ≤ m)) × (body + m ≤ length history.old)) }
    ensures { Tried edition room.old len p k history.old body m result room.new history.new }
{
    let behind = len - (p + k);
    let spare = m - k;
    rotate(room, p + k, behind + spare, behind);
    swap(room, p, history, body, m);
    if validity_of(&room[..len + spare], edition).is_ok() {
        return true;
    }
    swap(room, p, history, body, m);
    rotate(room, p + k, behind + spare, spare);
    false
}

// Fewer bytes come than leave: as many are swapped, then the others are rotated behind the codeplug.
fn revert_shorter(
    room: &mut [u8],
    len: usize,
    p: usize,
    k: usize,
    history: &mut [u8],
    body: usize,
    m: usize,
    edition: Edition,
) -> bool
    requires { ((p + k ≤ len) × (len ≤ length room.old)) × ((m < k) × (body + m ≤ length history.old)) }
    ensures { Tried edition room.old len p k history.old body m result room.new history.new }
{
    let behind = len - (p + k);
    let spare = k - m;
    swap(room, p, history, body, m);
    rotate(room, p + m, spare + behind, spare);
    if validity_of(&room[..len - spare], edition).is_ok() {
        clear(room, len - spare, spare);
        return true;
    }
    rotate(room, p + m, spare + behind, behind);
    swap(room, p, history, body, m);
    false
}

// Whether the result is valid: then the room holds it, else both buffers are as they were.
pub(crate) fn revert(
    room: &mut [u8],
    len: usize,
    p: usize,
    k: usize,
    history: &mut [u8],
    body: usize,
    m: usize,
    edition: Edition,
) -> bool
    requires { ((p + k ≤ len) × (len ≤ length room.old)) × ((len + m ≤ length room.old + k) × (body + m ≤ length history.old)) }
    ensures { Tried edition room.old len p k history.old body m result room.new history.new }
{
    if k <= m {
        revert_longer(room, len, p, k, history, body, m, edition)
    } else {
        revert_shorter(room, len, p, k, history, body, m, edition)
    }
}
