// Whether all entries of a bank are valid, asked before the first bad one is looked for. Nothing branches on the entries, so that
// the loop vectorises.
ghost use Rattle.std.specs.Prelude.{◌≡◌, true, ◌+◌, ◌<◌, ◌≤◌, ◌^◌, length};
ghost use Rattle.fields.specs.Rule.{Valid, is_valid, each};
ghost use Rattle.layout.specs.Places.{channel_count};
ghost use Rattle.layout.specs.Banks.{entry_at};

use format::sizes::BANK_ENTRY_SIZE;
use layout::places::channel_count;

fn entry_valid(f: &[u8], p: usize, channels: u16) -> bool
    requires { (p + 2 ≤ length f.now) × (channels ≡ channel_count f.now) }
    ensures { result ≡ is_valid (entry_at f.now p) }
{
    f[p] as u16 + 256 * (f[p + 1] as u16) < channels
}

// Yes only where all n entries from start on are valid.
#[tactic(auto, using(fields::proofs::Laws::valid_more, fields::proofs::Laws::valid_all, fields::proofs::Laws::valid_none))]
pub(crate) fn entries_valid(f: &[u8], n: usize, start: usize) -> bool
    requires { (n < 65536) × (start < 2 ^ 50) }
    ensures { result ≡ true → each (entry_at f.now) n 2 start ≡ Valid }
{
    let channels = channel_count(f) as u16;
    if f.len() < start + n * BANK_ENTRY_SIZE {
        return false;
    }
    let mut ok = true;
    for i in 0..n {
        ok &= entry_valid(f, start + i * BANK_ENTRY_SIZE, channels);
    }
    ok
}
