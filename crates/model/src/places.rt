// Banks of a file by their offsets.
ghost use Rattle.std.specs.Prelude.{◌≡◌, ◌<◌, ◌≤◌, ◌^◌, length};
ghost use Rattle.layout.specs.Places.{bank_count};
ghost use Rattle.layout.specs.Banks.{bank_place};
ghost use Rattle.model.specs.Codeplug.{codeplug_of};
ghost use Rattle.model.specs.EditRules.{entries_in};
ghost use Rattle.model.specs.HasLayout.{HasLayout};

use layout::places::{bank_count, entry_count, offset_place, offset_target};

// How many entries bank i has; none where there is no such bank.
pub fn entries_in(f: &[u8], i: usize) -> usize
    requires { HasLayout f.now }
    ensures { (result ≡ entries_in i (codeplug_of f.now).banks) × (result < 65536) }
{
    if i < bank_count(f) {
        return entry_count(f, offset_target(f, offset_place(f, i)));
    }
    0
}

// Where bank i starts; past the last, where the file ends.
pub fn bank_place(f: &[u8], i: usize) -> usize
    requires { (HasLayout f.now) × (i ≤ bank_count f.now) }
    ensures { (result ≡ bank_place f.now i) × ((result ≤ length f.now) × (result < 2 ^ 33)) }
{
    if i < bank_count(f) {
        return offset_target(f, offset_place(f, i));
    }
    f.len()
}
