// A block of a buffer moved up or down, and zeros.
ghost use Rattle.std.specs.Prelude.{◌≡◌, ◌+◌, ◌-◌, ◌≤◌, length};
ghost use Rattle.fields.specs.Bytes.{over, part, zeros};

// Moves the n bytes at `from` up by `by` places.
pub fn move_up(d: &mut [u8], from: usize, n: usize, by: usize)
    requires { from + n + by ≤ length d.old }
    ensures { d.new ≡ over d.old (from + by) (part d.old from n) }
{
    d.copy_within(from..from + n, from + by);
}

// Moves the n bytes at `from` down by `by` places.
pub fn move_down(d: &mut [u8], from: usize, n: usize, by: usize)
    requires { (by ≤ from) × (from + n ≤ length d.old) }
    ensures { d.new ≡ over d.old (from - by) (part d.old from n) }
{
    d.copy_within(from..from + n, from - by);
}

// Zeros over the n bytes at `from`.
pub fn clear(d: &mut [u8], from: usize, n: usize)
    requires { from + n ≤ length d.old }
    ensures { d.new ≡ over d.old from (zeros n) }
{
    d[from..from + n].fill(0);
}
