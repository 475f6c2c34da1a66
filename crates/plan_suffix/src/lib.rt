// How much agrees behind a change that moves offsets. The pieces of the new file are compared from the last one on.
#![tactic(auto)]

ghost use Rattle.std.specs.Prelude.{◌≡◌, ◌<◌, ◌≤◌, length};
ghost use Rattle.affixes.specs.Common.{common_suffix};
ghost use Rattle.plan_suffix.specs.Suffix.{table_end, new_offsets, entries_suffix, table_pieces, bank_suffix};
ghost use Rattle.plan_suffix.specs.Suffix.{EntriesInside, TableInside, BankInside};

use affixes::common_suffix;
use affixes::pieces::common_suffix_pieces;
use fields::numbers::le32;
use plan::numbers::{bytes16, bytes32};
use plan::{Block, Counted, Table};
use renumber::shift::grown;

// The common ending of s and the offsets of a table once they are moved.
fn common_suffix_offsets(s: &[u8], f: &[u8], t: Table) -> usize
    requires { (table_end t ≤ length f.now) × (t.many < 65536) }
    ensures { result ≡ common_suffix s.now (new_offsets t f.now) }
{
    let start = t.start;
    let growth = t.growth;
    let mut e = 0;
    for i in (0..t.many).rev() {
        let x = bytes32(grown(le32(f, start + i * 4), growth));
        let same = common_suffix(&s[..s.len() - e], &x);
        e += same;
        if same < 4 {
            return e;
        }
    }
    e
}

// What agrees of f from the table's offsets up to a cut's end, and the new bytes there: offsets, banks, a count, entries, r.
pub fn entries_suffix(f: &[u8], t: Table, c: Counted, r: &[u8]) -> usize
    requires { EntriesInside t c (length f.now) }
    ensures { result ≡ entries_suffix t c r.now f.now }
{
    let start = t.start;
    let after = start + t.many * 4;
    let counter = c.counter;
    let at = c.at;
    let end = at + c.gone;
    let n = bytes16(c.count);
    let e = common_suffix_pieces(
        &f[start..end],
        &[&f[after..counter], &n, &f[counter + 2..at], r],
    );
    if e < at - after + r.len() {
        return e;
    }
    e + common_suffix_offsets(&f[start..end - e], f, t)
}

// What agrees of s and the new bytes up to the table's end: a count, records, `added`, offsets.
fn table_suffix(s: &[u8], f: &[u8], t: Table, c: Counted, added: &[u8]) -> usize
    requires { TableInside t c (length f.now) }
    ensures { result ≡ common_suffix s.now (table_pieces t c added.now f.now) }
{
    let e = common_suffix_offsets(s, f, t);
    if e < t.many * 4 {
        return e;
    }
    let counter = c.counter;
    let at = c.at;
    let n = bytes16(c.count);
    e + common_suffix_pieces(&s[..s.len() - e], &[&n, &f[counter + 2..at], added])
}

// What agrees of f from the bank count up to a bank's end, and the new bytes there: those of `table_suffix`, banks, a and b.
pub fn bank_suffix(
    f: &[u8],
    t: Table,
    k: Block,
    a: &[u8],
    b: &[u8],
    c: Counted,
    added: &[u8],
) -> usize
    requires { BankInside t k c (length f.now) }
    ensures { result ≡ bank_suffix t k c a.now b.now added.now f.now }
{
    let after = t.start + t.many * 4;
    let counter = c.counter;
    let at = k.at;
    let end = at + k.size;
    let e = common_suffix_pieces(&f[counter..end], &[&f[after..at], a, b]);
    let rest = a.len() + b.len();
    if e < rest {
        return e;
    }
    if e - rest < at - after {
        return e;
    }
    e + table_suffix(&f[counter..end - e], f, t, c, added)
}
