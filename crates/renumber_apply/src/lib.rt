// Indexes and offsets moved in place.
#![tactic(auto)]

ghost use Rattle.std.specs.Prelude.{◌≡◌, ◌+◌, ◌*◌, ◌<◌, ◌≤◌, ◌^◌, length, map};
ghost use Rattle.fields.specs.Bytes.{over, part, num, little_bytes};
ghost use Rattle.layout.specs.Banks.{bank_from};
ghost use Rattle.model.specs.Codeplug.{pairs, indexes_at};
ghost use Rattle.model.specs.Edits.{move_contact};
ghost use Rattle.renumber.specs.Shift.{shift_of, growth_of};
ghost use Rattle.renumber.specs.Moved.{channels_moved, banks_moved, offsets_moved};

use fields::numbers::{le16, le32};
use fields::put::{put_le16, put_le32};
use format::sizes::{
    BANK_ENTRY_SIZE, BANK_HEAD_SIZE, CHANNEL_SIZE, DMR_CONTACT_AT, M17_CONTACT_AT, OFFSET_SIZE,
};
use layout::places::entry_count;
use renumber::shift::{Growth, Shift, grown, shifted};

// The index at p.
fn move_index(d: &mut [u8], p: usize, s: Shift)
    requires { p + 2 ≤ length d.old }
    ensures { d.new ≡ over d.old p (little_bytes 2 (shift_of s (num d.old p 2))) }
{
    put_le16(d, p, shifted(le16(d, p), s));
}

// The contact index of the channel at p; an FM channel has none.
fn move_contact(d: &mut [u8], p: usize, s: Shift)
    requires { p + 90 ≤ length d.old }
    ensures { d.new ≡ over d.old p (move_contact (shift_of s) (part d.old p 90)) }
{
    let mode = d[p];
    if mode == 1 {
        move_index(d, p + DMR_CONTACT_AT, s);
        return;
    }
    if mode == 2 {
        move_index(d, p + M17_CONTACT_AT, s);
    }
}

// The contact indexes of n channels.
pub fn move_contacts(d: &mut [u8], start: usize, n: usize, s: Shift)
    requires { (start + n * 90 ≤ length d.old) × (n < 65536) }
    ensures { d.new ≡ over d.old start (channels_moved (shift_of s) d.old n start) }
{
    for i in 0..n {
        move_contact(d, start + i * CHANNEL_SIZE, s);
    }
}

// The n entries at `start` of one bank.
#[tactic(auto, unfolding(model::specs::Codeplug::pairs, model::specs::Codeplug::indexes_at), using(renumber::proofs::Laws::run_step, fields::proofs::Laws::over_none))]
fn move_run(d: &mut [u8], start: usize, n: usize, s: Shift)
    requires { (start + n * 2 ≤ length d.old) × (n < 65536) }
    ensures { d.new ≡ over d.old start (pairs (map (shift_of s) (indexes_at d.old n start))) }
{
    for i in 0..n {
        move_index(d, start + i * BANK_ENTRY_SIZE, s);
    }
}

// The entries of n banks.
pub fn move_entries(d: &mut [u8], start: usize, n: usize, s: Shift)
    requires { ((bank_from d.old n start ≤ length d.old) × (length d.old < 2 ^ 32)) × (n < 65536) }
    ensures { d.new ≡ over d.old start (banks_moved (shift_of s) d.old n start) }
{
    let mut p = start;
    for _ in 0..n {
        let count = entry_count(d, p);
        move_run(d, p + BANK_HEAD_SIZE, count, s);
        p += BANK_HEAD_SIZE + count * BANK_ENTRY_SIZE;
    }
}

// n offsets of the table.
pub fn move_offsets(d: &mut [u8], start: usize, n: usize, g: Growth)
    requires { (start + n * 4 ≤ length d.old) × (n < 65536) }
    ensures { d.new ≡ over d.old start (offsets_moved n (growth_of g) d.old start) }
{
    for i in 0..n {
        let p = start + i * OFFSET_SIZE;
        put_le32(d, p, grown(le32(d, p), g));
    }
}
