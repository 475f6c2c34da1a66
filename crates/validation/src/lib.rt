// Validation of the whole codeplug file (document 01, "The file", "The refusals, by number"): 1 first, then fields in file order, the first bad
// one answering.
#![tactic(auto)]

ghost use Rattle.std.specs.Prelude.{◌≡◌};
ghost use Rattle.file_rule.specs.File.{file_rule};
ghost use Rattle.validation.specs.Validation.{validation};

use file_channels::validate_channels;
use file_contacts::validate_contacts;
use format::refusals::{Reason, Refusal};
use format::sizes::FILE_MAX;
use layout::Counts;
use layout::places::counts_of;
use layout_validation::banks::{validate_banks, validate_offsets};
use layout_validation::header::validate_header;
use m17::Edition;

// The first refusal of a file.
#[tactic(auto, unfolding(file_rule::specs::File::file_rule), using(file_rule::proofs::FileLaws::file_long, file_rule::proofs::FileLaws::file_fits, fields::proofs::Laws::ok_then, fields::proofs::Laws::err_then))]
pub fn validity_of(f: &[u8], edition: Edition) -> Result<(), Refusal>
    ensures { result ≡ file_rule edition f.now }
{
    if FILE_MAX < f.len() {
        return Err(Refusal {
            reason: Reason::TooLong,
            place: 0,
        });
    }
    validate_header(f)?;
    validate_contacts(f, edition)?;
    validate_channels(f)?;
    validate_offsets(f)?;
    validate_banks(f)
}

// Whether a file is accepted, with its three counts, or its refusal.
#[tactic(auto, unfolding(crate::specs::Validation::validation, crate::specs::Validation::validated_by))]
pub fn validate(f: &[u8], edition: Edition) -> Result<Counts, Refusal>
    ensures { result ≡ validation edition f.now }
{
    validity_of(f, edition)?;
    Ok(counts_of(f))
}
