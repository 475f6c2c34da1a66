// The last index that a renumbering changes. What stands behind it stays as it is, so no byte of it has to be compared.
#![tactic(auto)]

ghost use Rattle.std.specs.Prelude.{◌≡◌, ◌+◌, ◌*◌, ◌<◌, ◌≤◌, ◌^◌, length, map};
ghost use Rattle.fields.specs.Bytes.{over, part, num, little_bytes};
ghost use Rattle.layout.specs.Banks.{bank_from};
ghost use Rattle.model.specs.Codeplug.{pairs, indexes_at};
ghost use Rattle.model.specs.Edits.{move_contact};
ghost use Rattle.renumber.specs.Shift.{shift_of};
ghost use Rattle.renumber.specs.Moved.{channels_moved, banks_moved};
ghost use Rattle.renumber_last.specs.Last.{LastMoved};

use fields::numbers::le16;
use format::sizes::{
    BANK_ENTRY_SIZE, BANK_HEAD_SIZE, CHANNEL_SIZE, DMR_CONTACT_AT, M17_CONTACT_AT,
};
use layout::places::entry_count;
use renumber::shift::{Shift, shifted};

// Whether the index at p moves.
fn moves_at(f: &[u8], p: usize, s: Shift) -> Option<usize>
    requires { p + 2 ≤ length f.now }
    ensures { LastMoved (shift_of s) f.now (over f.now p (little_bytes 2 (shift_of s (num f.now p 2)))) p result }
{
    let x = le16(f, p);
    if shifted(x, s) == x {
        return None;
    }
    Some(p)
}

// The contact index of the channel at p.
fn last_of_channel(f: &[u8], p: usize, s: Shift) -> Option<usize>
    requires { p + 90 ≤ length f.now }
    ensures { LastMoved (shift_of s) f.now (over f.now p (move_contact (shift_of s) (part f.now p 90))) p result }
{
    let mode = f[p];
    if mode == 1 {
        return moves_at(f, p + DMR_CONTACT_AT, s);
    }
    if mode == 2 {
        return moves_at(f, p + M17_CONTACT_AT, s);
    }
    None
}

// The contact indexes of n channels.
#[tactic(auto, using(crate::proofs::LastLaws::contacts_none))]
pub fn last_contact(f: &[u8], start: usize, n: usize, s: Shift) -> Option<usize>
    requires { (start + n * 90 ≤ length f.now) × (n < 65536) }
    ensures { LastMoved (shift_of s) f.now (over f.now start (channels_moved (shift_of s) f.now n start)) start result }
{
    let mut last = None;
    for i in 0..n {
        last = last_of_channel(f, start + i * CHANNEL_SIZE, s).or(last);
    }
    last
}

// The n entries at `start` of one bank.
#[tactic(auto, unfolding(model::specs::Codeplug::pairs, model::specs::Codeplug::indexes_at), using(crate::proofs::LastLaws::run_last, crate::proofs::LastLaws::last_none))]
fn last_of_run(f: &[u8], start: usize, n: usize, s: Shift) -> Option<usize>
    requires { (start + n * 2 ≤ length f.now) × (n < 65536) }
    ensures { LastMoved (shift_of s) f.now (over f.now start (pairs (map (shift_of s) (indexes_at f.now n start)))) start result }
{
    let mut last = None;
    for i in 0..n {
        last = moves_at(f, start + i * BANK_ENTRY_SIZE, s).or(last);
    }
    last
}

// The entries of n banks.
pub fn last_entry(f: &[u8], start: usize, n: usize, s: Shift) -> Option<usize>
    requires { ((bank_from f.now n start ≤ length f.now) × (length f.now < 2 ^ 32)) × (n < 65536) }
    ensures { LastMoved (shift_of s) f.now (over f.now start (banks_moved (shift_of s) f.now n start)) start result }
{
    let mut last = None;
    let mut p = start;
    for _ in 0..n {
        let count = entry_count(f, p);
        last = last_of_run(f, p + BANK_HEAD_SIZE, count, s).or(last);
        p += BANK_HEAD_SIZE + count * BANK_ENTRY_SIZE;
    }
    last
}
