// Bank entries, one at a time, each call going on from the last.
ghost use Rattle.std.specs.Prelude.{◌≡◌, ◌<◌, ◌^◌, ◌+◌, ◌*◌};
ghost use Rattle.fields.specs.Bytes.{part};
ghost use Rattle.layout.specs.Banks.{entry_count};
ghost use Rattle.codeplug.specs.Read.{entries_read, entry_read};

use crate::read::bank_validity;
use entries::EntryStep;
use format::refusals::Refusal;
use format::sizes::{BANK_ENTRY_SIZE, BANK_HEAD_SIZE};
use layout::places::{entry_count, offset_place, offset_target, record_bytes};
use m17::Edition;

// The bytes of the entries of the bank at p; fewer than its entry count says where the file ends before.
pub fn entry_bytes(f: &[u8], p: usize) -> &[u8]
    requires { p < 2 ^ 50 }
    ensures { result.now ≡ part f.now (p + 34) (entry_count f.now p * 2) }
{
    record_bytes(f, p + BANK_HEAD_SIZE, entry_count(f, p) * BANK_ENTRY_SIZE)
}

// The bytes of bank n's entries in an accepted file; none where the file or the place is refused.
#[tactic(auto, unfolding(crate::specs::Read::entries_read, crate::specs::Read::entries_answer, crate::specs::Prevalidated::table_place))]
pub fn entries(f: &[u8], n: usize, edition: Edition) -> &[u8]
    ensures { result.now ≡ entries_read edition f.now n }
{
    match bank_validity(f, n, edition) {
        Ok(()) => entry_bytes(f, offset_target(f, offset_place(f, n))),
        Err(_) => &f[..0],
    }
}

// Entry i of bank n: the file's refusal, then that there is no such place.
#[tactic(auto, unfolding(crate::specs::Read::entry_read, crate::specs::Read::entry_answer, crate::specs::Read::entries_read, crate::specs::Read::entries_answer, crate::specs::Prevalidated::table_place))]
pub fn entry(f: &[u8], n: usize, i: usize, edition: Edition) -> Result<EntryStep, Refusal>
    ensures { result ≡ entry_read edition f.now n i }
{
    bank_validity(f, n, edition)?;
    let p = offset_target(f, offset_place(f, n));
    entries::walked(entry_bytes(f, p), i)
}
