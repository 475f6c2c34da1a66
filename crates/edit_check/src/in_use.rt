// Whether a contact or a channel of an accepted file is in use (35).
ghost use Rattle.std.specs.Prelude.{◌≡◌, ◌+◌, ◌<◌, ◌^◌};
ghost use Rattle.model.specs.Codeplug.{codeplug_of, indexes_at};
ghost use Rattle.model.specs.EditRules.{some_names, holds_channel, some_holds, in_use};

use channel::values::named_contact;
use fields::numbers::le16;
use format::sizes::{BANK_ENTRY_SIZE, BANK_HEAD_SIZE, CHANNEL_SIZE};
use layout::places::{
    bank_count, banks_place, channel_count, channel_place, entry_count, next_bank, record_bytes,
};
use model::{Kind, is_index};

// Whether some DMR or M17 channel names contact i.
#[tactic(auto, unfolding(model::specs::Codeplug::codeplug_of), using(crate::proofs::InUse::names_found, crate::proofs::InUse::names_next, crate::proofs::InUse::names_none))]
pub(crate) fn some_names(f: &[u8], i: usize) -> bool
    ensures { result ≡ some_names i (codeplug_of f.now).channels }
{
    let start = channel_place(f, 0);
    for n in 0..channel_count(f) {
        let channel = record_bytes(f, start + n * CHANNEL_SIZE, CHANNEL_SIZE);
        if is_index(named_contact(channel), i) {
            return true;
        }
    }
    false
}

// Whether one of n entries from place p on is channel i.
#[tactic(auto, using(crate::proofs::InUse::holds_found, crate::proofs::InUse::holds_next, crate::proofs::InUse::holds_none))]
fn bank_holds(f: &[u8], n: usize, start: usize, i: usize) -> bool
    requires { (n < 65536) × (start < 2 ^ 50) }
    ensures { result ≡ holds_channel i (indexes_at f.now n start) }
{
    for j in 0..n {
        if le16(f, start + j * BANK_ENTRY_SIZE) as usize == i {
            return true;
        }
    }
    false
}

// Whether some bank holds channel i.
#[tactic(auto, unfolding(model::specs::Codeplug::codeplug_of), using(crate::proofs::InUse::banks_found, crate::proofs::InUse::banks_next, crate::proofs::InUse::banks_none))]
pub(crate) fn some_holds(f: &[u8], i: usize) -> bool
    ensures { result ≡ some_holds i (codeplug_of f.now).banks }
{
    let mut p = banks_place(f);
    for _ in 0..bank_count(f) {
        if bank_holds(f, entry_count(f, p), p + BANK_HEAD_SIZE, i) {
            return true;
        }
        p = next_bank(f, p);
    }
    false
}

// Whether an edit would remove what is in use.
pub(crate) fn in_use(f: &[u8], k: Kind, i: usize) -> bool
    ensures { result ≡ in_use k i (codeplug_of f.now) }
{
    match k {
        Kind::RemoveContact => some_names(f, i),
        Kind::RemoveChannel => some_holds(f, i),
        _ => false,
    }
}
