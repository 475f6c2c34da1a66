// The places and counts of an edit (33, 34).
ghost use Rattle.std.specs.Prelude.{◌≡◌};
ghost use Rattle.model.specs.HasLayout.{HasLayout};
ghost use Rattle.model.specs.Codeplug.{codeplug_of};
ghost use Rattle.model.specs.EditRules.{place_ok, count_ok};

use format::sizes::COUNT_MAX;
use layout::places::{bank_count, channel_count, contact_count};
use model::Kind;
use model::places::entries_in;

// Whether an edit's two places are there.
pub(crate) fn place_ok(f: &[u8], k: Kind, i: usize, j: usize) -> bool
    requires { HasLayout f.now }
    ensures { result ≡ place_ok k i j (codeplug_of f.now) }
{
    let contacts = contact_count(f);
    let channels = channel_count(f);
    let banks = bank_count(f);
    match k {
        Kind::InsertContact => (i <= contacts) & (j == 0),
        Kind::RemoveContact | Kind::ReplaceContact => (i < contacts) & (j == 0),
        Kind::InsertChannel => (i <= channels) & (j == 0),
        Kind::RemoveChannel | Kind::ReplaceChannel => (i < channels) & (j == 0),
        Kind::InsertBank => (i <= banks) & (j == 0),
        Kind::RemoveBank | Kind::RenameBank => (i < banks) & (j == 0),
        Kind::InsertEntry => (i < banks) & (j <= entries_in(f, i)),
        Kind::RemoveEntry => (i < banks) & (j < entries_in(f, i)),
        Kind::SetHeader => (i == 0) & (j == 0),
    }
}

// Whether the count that an edit makes grow may grow.
pub(crate) fn count_ok(f: &[u8], k: Kind, i: usize) -> bool
    requires { HasLayout f.now }
    ensures { result ≡ count_ok k i (codeplug_of f.now) }
{
    match k {
        Kind::InsertContact => contact_count(f) != COUNT_MAX,
        Kind::InsertChannel => channel_count(f) != COUNT_MAX,
        Kind::InsertBank => bank_count(f) != COUNT_MAX,
        Kind::InsertEntry => entries_in(f, i) != COUNT_MAX,
        _ => true,
    }
}
