// Validation of a contact record's 39 bytes (document 01, "The file"): the first bad field of a contact whose bytes s start at base.
#![tactic(auto)]

pub mod whole; // whole.rt: whether a whole contact is valid, without a branch

ghost use Rattle.std.specs.Prelude.{◌≡◌, cond, ◌<◌, ◌^◌, eqb};
ghost use Rattle.contact.specs.Contact.{mode_ok, dmr_rule_by, m17_rule, contact_rule_by, contact_rule};

use fields::numbers::{be48, byte_at};
use fields::rule::field;
use format::refusals::{Reason, Refusal};
use format::sizes::{CONTACT_MODE_AT, CONTACT_SIZE};
use m17::Edition;
use text::text_field;

#[tactic(auto, unfolding(contact::specs::Contact::mode_ok))]
fn mode_ok(m: u8) -> bool
    ensures { result ≡ mode_ok m }
{
    m == contact::DMR || m == contact::M17
}

#[tactic(auto, using(fields::proofs::Laws::ok_then, fields::proofs::Laws::err_then))]
fn validate_dmr(s: &[u8], base: usize, settings: bool) -> Result<(), Refusal>
    requires { base < 2 ^ 62 }
    ensures { result ≡ dmr_rule_by settings s.now base }
{
    let left = s.len();
    field(left, base, 33, 4, Reason::Value, true)?;
    field(left, base, 37, 1, Reason::Value, settings)?;
    field(left, base, 38, 1, Reason::Value, byte_at(s, 38) == 0)
}

#[tactic(auto, unfolding(contact::specs::Contact::m17_rule), using(fields::proofs::Laws::field_cut))]
fn validate_m17(s: &[u8], base: usize, edition: Edition) -> Result<(), Refusal>
    requires { base < 2 ^ 62 }
    ensures { result ≡ m17_rule edition s.now base }
{
    let left = s.len();
    if left < CONTACT_SIZE {
        return Err(Refusal {
            reason: Reason::Cut,
            place: base + 33,
        });
    }
    field(
        left,
        base,
        33,
        6,
        Reason::Address,
        m17::address_ok(be48(s, 33), edition),
    )
}

fn validate_info(
    s: &[u8],
    base: usize,
    mode: u8,
    settings: bool,
    edition: Edition,
) -> Result<(), Refusal>
    requires { base < 2 ^ 62 }
    ensures { result ≡ cond (eqb mode 1) (dmr_rule_by settings s.now base) (m17_rule edition s.now base) }
{
    if mode == contact::DMR {
        validate_dmr(s, base, settings)
    } else {
        validate_m17(s, base, edition)
    }
}

// Whether the settings byte is within its rule comes in as `settings`.
#[tactic(auto, using(fields::proofs::Laws::ok_then, fields::proofs::Laws::err_then))]
pub fn validate_by(s: &[u8], base: usize, settings: bool, edition: Edition) -> Result<(), Refusal>
    requires { base < 2 ^ 62 }
    ensures { result ≡ contact_rule_by edition (dmr_rule_by settings s.now base) s.now base }
{
    let mode = byte_at(s, CONTACT_MODE_AT);
    text_field(s, base, 0)?;
    field(
        s.len(),
        base,
        CONTACT_MODE_AT,
        1,
        Reason::Mode,
        mode_ok(mode),
    )?;
    validate_info(s, base, mode, settings, edition)
}

#[tactic(auto, unfolding(contact::specs::Contact::contact_rule, contact::specs::Contact::dmr_rule))]
pub fn validate(s: &[u8], base: usize, edition: Edition) -> Result<(), Refusal>
    requires { base < 2 ^ 62 }
    ensures { result ≡ contact_rule edition s.now base }
{
    validate_by(s, base, bits::number_flag_ok(byte_at(s, 37)), edition)
}
