// Bytes of a buffer rotated, and blocks of two buffers swapped: moves that can be taken back.
#![tactic(auto)]

ghost use Rattle.std.specs.Prelude.{◌≡◌, ◌+◌, ◌≤◌, ◌++◌, length, take, drop};
ghost use Rattle.fields.specs.Bytes.{over, part};
ghost use Rattle.rotation.specs.Rotation.{rotated};

// Rotates the n bytes at `from` left by `by` places.
pub fn rotate(d: &mut [u8], from: usize, n: usize, by: usize)
    requires { (from + n ≤ length d.old) × (by ≤ n) }
    ensures { d.new ≡ rotated d.old from n by }
{
    if by == 0 || by == n {
        return;
    }
    let row = &mut d[from..from + n];
    // An edit mostly moves few bytes. They wait in 128 bytes here, since the method clears 4 KiB at each call.
    if by <= 128 {
        rotate_few_first(row, by);
    } else if n - by <= 128 {
        rotate_few_last(row, by);
    } else {
        row.rotate_left(by);
    }
}

// The first bytes kept aside, the others moved down.
fn rotate_few_first(row: &mut [u8], by: usize)
    requires { (by ≤ length row.old) × (by ≤ 128) }
    ensures { row.new ≡ drop by row.old ++ take by row.old }
{
    let rest = row.len() - by;
    let mut saved = [0u8; 128];
    saved[..by].copy_from_slice(&row[..by]);
    row.copy_within(by.., 0);
    row[rest..].copy_from_slice(&saved[..by]);
}

// The last bytes kept aside, the others moved up.
fn rotate_few_last(row: &mut [u8], by: usize)
    requires { (by ≤ length row.old) × (length row.old ≤ by + 128) }
    ensures { row.new ≡ drop by row.old ++ take by row.old }
{
    let rest = row.len() - by;
    let mut saved = [0u8; 128];
    saved[..rest].copy_from_slice(&row[by..]);
    row.copy_within(..by, rest);
    row[..rest].copy_from_slice(&saved[..rest]);
}

// Swaps the n bytes at i of a with those at j of b.
pub fn swap(a: &mut [u8], i: usize, b: &mut [u8], j: usize, n: usize)
    requires { (i + n ≤ length a.old) × (j + n ≤ length b.old) }
    ensures { (a.new ≡ over a.old i (part b.old j n)) × (b.new ≡ over b.old j (part a.old i n)) }
{
    a[i..i + n].swap_with_slice(&mut b[j..j + n]);
}
