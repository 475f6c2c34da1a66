// Validation of a file by the legacy reading (document 02, [5]): the walk over its contacts and channels, whose traits and settings have another rule; everything
// else is validated by what validates any file.
#![tactic(auto)]

ghost use Rattle.std.specs.Prelude.{◌≡◌, ◌<◌, ◌^◌};
ghost use Rattle.layout.specs.Places.{contact_count};
ghost use Rattle.legacy.specs.Reading.{legacy_contact_at, legacy_contacts_rule, legacy_channel_at, legacy_channels_rule, legacy_file_rule};
ghost use Rattle.legacy_validation.specs.Validation.{legacy_validation};

use fields::numbers::byte_at;
use file_channels::index_ok;
use file_channels::whole::index_valid;
use format::refusals::{Reason, Refusal};
use format::sizes::{CHANNEL_SIZE, CONTACT_SIZE, FILE_MAX};
use layout::Counts;
use layout::places::{
    channel_count, channel_place, contact_count, contact_place, counts_of, record_bytes,
};
use layout_validation::banks::{validate_banks, validate_offsets};
use layout_validation::header::validate_header;
use legacy::number_flag_ok;
use m17::Edition;

// The contact at p: its fields are looked at one by one only where it is not valid.
#[tactic(auto, unfolding(legacy::specs::Reading::legacy_contact_rule), using(fields::proofs::Laws::valid_by_test))]
fn contact_at(f: &[u8], p: usize, edition: Edition) -> Result<(), Refusal>
    requires { p < 2 ^ 62 }
    ensures { result ≡ legacy_contact_at edition f.now p }
{
    let s = record_bytes(f, p, CONTACT_SIZE);
    if s.len() == CONTACT_SIZE {
        if contact_validation::whole::is_valid_by(s, number_flag_ok(s[37]), edition) {
            return Ok(());
        }
    }
    contact_validation::validate_by(s, p, number_flag_ok(byte_at(s, 37)), edition)
}

#[tactic(auto, unfolding(legacy::specs::Reading::legacy_contacts_rule, layout::specs::Places::contact_place), using(fields::proofs::Laws::each_more, fields::proofs::Laws::each_refused, fields::proofs::Laws::each_none))]
fn validate_contacts(f: &[u8], edition: Edition) -> Result<(), Refusal>
    ensures { result ≡ legacy_contacts_rule edition f.now }
{
    for i in 0..contact_count(f) {
        contact_at(f, contact_place(i), edition)?;
    }
    Ok(())
}

// The channel at p, of a file with so many contacts: its fields are looked at one by one only where it is not valid.
#[tactic(auto, unfolding(legacy::specs::Reading::legacy_channel_rule), using(fields::proofs::Laws::valid_by_test, crate::proofs::IndexLaws::index_by_bytes))]
fn channel_at(f: &[u8], p: usize, contacts: usize) -> Result<(), Refusal>
    requires { (p < 2 ^ 62) × (contacts ≡ contact_count f.now) }
    ensures { result ≡ legacy_channel_at f.now p }
{
    let s = record_bytes(f, p, CHANNEL_SIZE);
    if s.len() == CHANNEL_SIZE {
        let named = index_valid(f, s, contacts);
        if channel_validation::whole::is_valid_by(s, named, number_flag_ok(s[1])) {
            return Ok(());
        }
    }
    channel_validation::validate_by(s, p, index_ok(f, s), number_flag_ok(byte_at(s, 1)))
}

#[tactic(auto, unfolding(legacy::specs::Reading::legacy_channels_rule), using(fields::proofs::Laws::each_more, fields::proofs::Laws::each_refused, fields::proofs::Laws::each_none))]
fn validate_channels(f: &[u8]) -> Result<(), Refusal>
    ensures { result ≡ legacy_channels_rule f.now }
{
    let contacts = contact_count(f);
    let start = channel_place(f, 0);
    for i in 0..channel_count(f) {
        channel_at(f, start + i * CHANNEL_SIZE, contacts)?;
    }
    Ok(())
}

// The first refusal of a file by the legacy reading.
#[tactic(auto, unfolding(legacy::specs::Reading::legacy_file_rule), using(file_rule::proofs::FileLaws::file_long, file_rule::proofs::FileLaws::file_fits, fields::proofs::Laws::ok_then, fields::proofs::Laws::err_then))]
pub fn validity_of(f: &[u8], edition: Edition) -> Result<(), Refusal>
    ensures { result ≡ legacy_file_rule edition f.now }
{
    if FILE_MAX < f.len() {
        return Err(Refusal {
            reason: Reason::TooLong,
            place: 0,
        });
    }
    validate_header(f)?;
    validate_contacts(f, edition)?;
    validate_channels(f)?;
    validate_offsets(f)?;
    validate_banks(f)
}

// Whether a file is accepted by the legacy reading, with its three counts, or its refusal.
#[tactic(auto, unfolding(crate::specs::Validation::legacy_validation, validation::specs::Validation::validated_by))]
pub fn validate(f: &[u8], edition: Edition) -> Result<Counts, Refusal>
    ensures { result ≡ legacy_validation edition f.now }
{
    validity_of(f, edition)?;
    Ok(counts_of(f))
}
