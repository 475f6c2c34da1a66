// The characters of digits, and of a group, three digits of an address number, written into a buffer.
#![tactic(auto)]

pub mod table; // table.rt: the characters of digits

ghost use Rattle.std.specs.Prelude.{◌≡◌, ◌+◌, ◌<◌, ◌≤◌, length};
ghost use Rattle.fields.specs.Bytes.{over};
ghost use Rattle.fields.specs.Table.{Table};
ghost use Rattle.m17.specs.Address.{char_of, text_up_to};
ghost use Rattle.m17_groups.specs.Places.{full, padded, while_rest};

use m17_digits::digits_of;

// The character of a digit below 40, by the table of characters.
pub fn character(characters: &[u8; 40], d: u8) -> u8
    requires { (d < 40) × Table char_of 0 40 characters.now }
    ensures { result ≡ char_of d }
{
    characters[d as usize]
}

// A value where there is a rest to write, else 0.
pub fn while_rest(rest: u64, value: u8) -> u8
    ensures { result ≡ while_rest rest value }
{
    if rest == 0 { 0 } else { value }
}

// A group with another above it: three characters.
pub fn write_full(characters: &[u8; 40], out: &mut [u8], k: usize, group: u32)
    requires { Table char_of 0 40 characters.now × (k + 3 ≤ length out.old) × (group < 64000) }
    ensures { out.new ≡ over out.old k (full group) }
{
    let digits = digits_of(group);
    out[k] = character(characters, digits.first);
    out[k + 1] = character(characters, digits.second);
    out[k + 2] = character(characters, digits.third);
}

// The last group: one to three characters, zeros after them; how many characters there are.
pub fn write_last(characters: &[u8; 40], out: &mut [u8], k: usize, group: u32) -> usize
    requires { Table char_of 0 40 characters.now × (k + 3 ≤ length out.old) × (group < 64000) × (0 < group) }
    ensures { (result ≡ length (text_up_to 3 group)) × (out.new ≡ over out.old k (padded 3 group)) }
{
    let digits = digits_of(group);
    out[k] = character(characters, digits.first);
    out[k + 1] = while_rest((group / 40) as u64, character(characters, digits.second));
    out[k + 2] = while_rest((group / 1600) as u64, character(characters, digits.third));
    1 + while_rest((group / 40) as u64, 1) as usize + while_rest((group / 1600) as u64, 1) as usize
}
