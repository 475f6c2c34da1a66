// An edit's entry put in front of the history.
ghost use Rattle.std.specs.Prelude.{◌≡◌, ◌+◌, ◌-◌, ◌≤◌, length};
ghost use Rattle.fields.specs.Bytes.{over};
ghost use Rattle.journal.specs.Entry.{entry_bytes, history_bytes};
ghost use Rattle.journal.specs.Machine.{holding};
ghost use Rattle.journal.specs.Span.{Sound, span_size, entry_from, Reserved, Recordable, recorded_over, run_held};

use crate::scan::{Run, fitting};
use buffers::block::{clear, move_up};
use fields::put::put;
use varint::{number_length, put_number};

// A change: k new bytes stand at p in place of m old ones.
#[derive(Clone, Copy)]
pub struct Span {
    pub place: usize,
    pub put: usize,
    pub taken: usize,
}

// How many bytes a change's entry takes.
pub fn entry_size(s: Span) -> usize
    requires { Sound s }
    ensures { result ≡ span_size s }
{
    number_length(s.place) + number_length(s.put) + number_length(s.taken) + s.taken
}

// Writes an entry at the front of a buffer.
fn write_entry(d: &mut [u8], s: Span, old: &[u8])
    requires { (Sound s × (length old.now ≡ s.taken)) × (span_size s ≤ length d.old) }
    ensures { d.new ≡ over d.old 0 (entry_bytes (entry_from s old.now)) }
{
    let a = number_length(s.place);
    let b = a + number_length(s.put);
    let c = b + number_length(s.taken);
    put_number(d, 0, s.place);
    put_number(d, a, s.put);
    put_number(d, b, s.taken);
    put(d, c, old);
}

// a - b, or 0 where b is larger.
fn excess(a: usize, b: usize) -> usize
    ensures { result ≡ a - b }
{
    if a < b {
        return 0;
    }
    a - b
}

// Reserves `size` bytes in front of the first n bytes of a history; what lies between the new and the old length is zeroed. The caller
// fills them.
fn reserve(d: &mut [u8], used: usize, n: usize, size: usize)
    requires { (size + n ≤ length d.old) × (used ≤ length d.old) }
    ensures { Reserved d.old used n size d.new }
{
    let bytes = size + n;
    let past = excess(used, bytes);
    move_up(d, 0, n, size);
    clear(d, bytes, past);
}

// Puts an entry first and keeps the longest run of earlier ones that still fits; what lies between the new and the old length is zeroed.
pub fn record_entry(d: &mut [u8], used: usize, s: Span, old: &[u8]) -> Run
    requires { Recordable d.old used s old.now }
    ensures history { d.new ≡ holding d.old used (history_bytes (recorded_over d.old used s old.now)) }
    ensures left { result ≡ run_held (recorded_over d.old used s old.now) }
{
    let size = entry_size(s);
    let space = d.len() - size;
    let kept = fitting(&d[..used], space);
    reserve(d, used, kept.bytes, size);
    write_entry(d, s, old);
    Run {
        bytes: size + kept.bytes,
        entries: kept.entries + 1,
    }
}
