// Validation of the header.
ghost use Rattle.std.specs.Prelude.{◌≡◌};
ghost use Rattle.layout.specs.Header.{identity_rule, header_rule};

use fields::numbers::{le16, le64};
use fields::rule::field;
use format::header::{FILE_VERSION, MAGIC_NUMBER};
use format::refusals::{Reason, Refusal};
use format::sizes::{BANK_COUNT_AT, CHANNEL_COUNT_AT, CONTACT_COUNT_AT};
use text::text_field;

#[tactic(auto, unfolding(layout::specs::Header::identity_rule), using(fields::proofs::Laws::ok_then, fields::proofs::Laws::err_then))]
fn validate_identity(f: &[u8]) -> Result<(), Refusal>
    ensures { result ≡ identity_rule f.now }
{
    let left = f.len();
    field(left, 0, 0, 8, Reason::Magic, le64(f, 0) == MAGIC_NUMBER)?;
    field(left, 0, 8, 2, Reason::Version, le16(f, 8) == FILE_VERSION)?;
    text_field(f, 0, 10)?;
    text_field(f, 0, 42)
}

#[tactic(auto, unfolding(layout::specs::Header::header_rule), using(fields::proofs::Laws::ok_then, fields::proofs::Laws::err_then))]
pub fn validate_header(f: &[u8]) -> Result<(), Refusal>
    ensures { result ≡ header_rule f.now }
{
    let left = f.len();
    validate_identity(f)?;
    field(left, 0, 74, 8, Reason::Value, true)?;
    field(left, 0, CONTACT_COUNT_AT, 2, Reason::Value, true)?;
    field(left, 0, CHANNEL_COUNT_AT, 2, Reason::Value, true)?;
    field(left, 0, BANK_COUNT_AT, 2, Reason::Value, true)
}
