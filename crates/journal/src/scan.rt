// The entries that bytes hold.
ghost use Rattle.std.specs.Prelude.{◌≡◌, ◌+◌, ◌≤◌, length, drop};
ghost use Rattle.journal.specs.Entry.{front_of, entries_of, Entries};
ghost use Rattle.journal.specs.History.{number_of_entries};
ghost use Rattle.journal.specs.Scan.{head_of, run_of};

use varint::number_at;

// Where an entry's parts stand: its place and lengths, its old bytes' place and the place after it.
#[derive(Clone, Copy)]
pub struct EntryHead {
    pub place: usize,
    pub put: usize,
    pub taken: usize,
    pub body: usize,
    pub next: usize,
}

// A run of entries: how many bytes and how many entries.
#[derive(Clone, Copy)]
pub struct Run {
    pub bytes: usize,
    pub entries: usize,
}

// The entry at place k.
pub fn history_entry_at(s: &[u8], k: usize) -> Option<EntryHead>
    requires { k ≤ length s.now }
    ensures { result ≡ head_of (front_of (drop k s.now)) (length s.now) }
{
    let place = number_at(s, k)?;
    let put_at = k + place.size;
    let put = number_at(s, put_at)?;
    let taken_at = put_at + put.size;
    let taken = number_at(s, taken_at)?;
    let body = taken_at + taken.size;
    if s.len() - body < taken.value {
        return None;
    }
    Some(EntryHead {
        place: place.value,
        put: put.value,
        taken: taken.value,
        body,
        next: body + taken.value,
    })
}

// How many entries a history holds, or that it is not whole entries.
#[tactic(auto, using(crate::proofs::ScanLaws::head_broken, crate::proofs::ScanLaws::counted_start, crate::proofs::ScanLaws::counted_stop, crate::proofs::ScanLaws::counted_end))]
pub fn history_entries(s: &[u8]) -> Option<usize>
    ensures { result ≡ number_of_entries (entries_of s.now) }
{
    // No `for`: an entry says where the next one is.
    let mut k = 0;
    let mut n = 0;
    while k < s.len() {
        k = history_entry_at(s, k)?.next;
        n += 1;
    }
    Some(n)
}

// The longest run of a history's entries, from the front, within so many bytes.
pub(crate) fn fitting(s: &[u8], space: usize) -> Run
    requires { number_of_entries (entries_of s.now) ≡ None → ⊥ }
    ensures { result ≡ run_of (entries_of s.now) space }
{
    // No `for`: an entry says where the next one is.
    let mut bytes = 0;
    let mut entries = 0;
    while bytes < s.len() {
        let Some(e) = history_entry_at(s, bytes) else {
            break;
        };
        let next = e.next;
        if space < next {
            break;
        }
        bytes = next;
        entries += 1;
    }
    Run { bytes, entries }
}
