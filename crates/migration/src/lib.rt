// A legacy file migrated in place (document 02, [5]): traits and settings in the new order. It is validated first, so a refused file is never touched.
#![tactic(auto)]

ghost use Rattle.std.specs.Prelude.{◌≡◌, ◌+◌, ◌*◌, ◌<◌, ◌≤◌, length};
ghost use Rattle.fields.specs.Bytes.{over, part};
ghost use Rattle.legacy.specs.Reading.{legacy_file_rule};
ghost use Rattle.legacy.specs.Migration.{migrated_contact, migrated_channel, with_records_at, migrated_by};
ghost use Rattle.legacy_validation.specs.Validation.{legacy_validation};

use format::refusals::Refusal;
use format::sizes::{CHANNEL_SIZE, CONTACT_MODE_AT};
use layout::Counts;
use layout::places::{channel_count, channel_place, contact_count, contact_place, counts_of};
use legacy::migrated_byte;
use legacy_validation::validity_of;
use m17::Edition;

// The settings of the contact at p. Byte 37 of an M17 contact belongs to its address.
#[tactic(auto, using(crate::proofs::Laws::contact_dmr, crate::proofs::Laws::contact_other))]
fn migrate_contact(d: &mut [u8], p: usize)
    requires { p + 39 ≤ length d.old }
    ensures { d.new ≡ over d.old p (migrated_contact (part d.old p 39)) }
{
    if d[p + CONTACT_MODE_AT] == contact::DMR {
        d[p + 37] = migrated_byte(d[p + 37]);
    }
}

// The traits of the channel at p.
#[tactic(auto, using(crate::proofs::Laws::channel_moved))]
fn migrate_channel(d: &mut [u8], p: usize)
    requires { p + 90 ≤ length d.old }
    ensures { d.new ≡ over d.old p (migrated_channel (part d.old p 90)) }
{
    d[p + 1] = migrated_byte(d[p + 1]);
}

// The first n contacts.
#[tactic(auto, unfolding(layout::specs::Places::contact_place), using(crate::proofs::Laws::contacts_none, crate::proofs::Laws::contacts_more))]
fn migrate_contacts(d: &mut [u8], n: usize)
    requires { (88 + n * 39 ≤ length d.old) × (n < 65536) }
    ensures { d.new ≡ with_records_at 88 migrated_contact 39 n d.old }
{
    for i in 0..n {
        migrate_contact(d, contact_place(i));
    }
}

// The n channels from `start` on.
#[tactic(auto, using(crate::proofs::Laws::channels_none, crate::proofs::Laws::channels_more))]
fn migrate_channels(d: &mut [u8], start: usize, n: usize)
    requires { (start + n * 90 ≤ length d.old) × (n < 65536) }
    ensures { d.new ≡ with_records_at start migrated_channel 90 n d.old }
{
    for i in 0..n {
        migrate_channel(d, start + i * CHANNEL_SIZE);
    }
}

// Answers as validation by the legacy reading does. An accepted file is migrated, a refused one stays as it is.
#[tactic(auto, unfolding(legacy_validation::specs::Validation::legacy_validation, validation::specs::Validation::validated_by, legacy::specs::Migration::migrated_by))]
pub fn migrate(f: &mut [u8], edition: Edition) -> Result<Counts, Refusal>
    ensures { (result ≡ legacy_validation edition f.old) × (f.new ≡ migrated_by (legacy_file_rule edition f.old) f.old) }
{
    validity_of(f, edition)?;
    let counts = counts_of(f);
    let contacts = contact_count(f);
    let channels = channel_count(f);
    let start = channel_place(f, 0);
    migrate_contacts(f, contacts);
    migrate_channels(f, start, channels);
    Ok(counts)
}
