// Validation of a channel record's 90 bytes (document 01, "The file"): the first bad field of a channel whose bytes s start at base. Whether its contact index names a contact of the file comes in as
// `named`.
#![tactic(auto)]

pub mod whole; // whole.rt: whether a whole channel is valid, without a branch

ghost use Rattle.std.specs.Prelude.{◌≡◌, ◌<◌, ◌^◌};
ghost use Rattle.channel.specs.Rule.{head_rule_by, texts_rule, location_rule, fm_rule, dmr_rule, m17_rule, info_rule, channel_rule_by, channel_rule};

use bits::Nibbles;
use channel::values::{fraction_ok, latitude_fraction_ok, latitude_ok, operation_ok, slot_ok};
use fields::numbers::{byte_at, le16};
use fields::rule::field;
use format::refusals::{Reason, Refusal};
use format::sizes::{DMR_CONTACT_AT, M17_CONTACT_AT};
use text::text_field;
use tones::tone_ok;

#[tactic(auto, unfolding(channel::specs::Values::mode_ok), using(fields::proofs::Laws::ok_then, fields::proofs::Laws::err_then))]
fn validate_head(s: &[u8], base: usize, traits: bool) -> Result<(), Refusal>
    requires { base < 2 ^ 62 }
    ensures { result ≡ head_rule_by traits s.now base }
{
    let left = s.len();
    field(left, base, 0, 1, Reason::Mode, byte_at(s, 0) <= 2)?;
    field(left, base, 1, 1, Reason::Value, traits)?;
    field(left, base, 2, 1, Reason::Value, true)?;
    field(left, base, 3, 4, Reason::Value, true)?;
    field(left, base, 7, 4, Reason::Value, true)?;
    field(left, base, 11, 1, Reason::Value, byte_at(s, 11) <= 250)?;
    field(left, base, 12, 1, Reason::Value, byte_at(s, 12) <= 128)
}

#[tactic(auto, unfolding(channel::specs::Rule::texts_rule), using(fields::proofs::Laws::ok_then, fields::proofs::Laws::err_then))]
fn validate_texts(s: &[u8], base: usize) -> Result<(), Refusal>
    requires { base < 2 ^ 62 }
    ensures { result ≡ texts_rule s.now base }
{
    text_field(s, base, 13)?;
    text_field(s, base, 45)
}

#[tactic(auto, unfolding(channel::specs::Rule::location_rule), using(fields::proofs::Laws::ok_then, fields::proofs::Laws::err_then))]
fn validate_location(s: &[u8], base: usize) -> Result<(), Refusal>
    requires { base < 2 ^ 62 }
    ensures { result ≡ location_rule s.now base }
{
    let left = s.len();
    let floor = byte_at(s, 77);
    field(left, base, 77, 1, Reason::Value, latitude_ok(floor))?;
    field(
        left,
        base,
        78,
        2,
        Reason::Value,
        latitude_fraction_ok(floor, le16(s, 78)),
    )?;
    field(left, base, 80, 1, Reason::Value, true)?;
    field(left, base, 81, 2, Reason::Value, fraction_ok(le16(s, 81)))?;
    field(left, base, 83, 2, Reason::Value, true)
}

#[tactic(auto, unfolding(channel::specs::Rule::fm_rule), using(fields::proofs::Laws::ok_then, fields::proofs::Laws::err_then))]
fn validate_fm(s: &[u8], base: usize) -> Result<(), Refusal>
    requires { base < 2 ^ 62 }
    ensures { result ≡ fm_rule s.now base }
{
    let left = s.len();
    field(left, base, 85, 1, Reason::Value, tone_ok(byte_at(s, 85)))?;
    field(left, base, 86, 1, Reason::Value, tone_ok(byte_at(s, 86)))?;
    field(left, base, 87, 1, Reason::Value, byte_at(s, 87) == 0)?;
    field(left, base, 88, 1, Reason::Value, byte_at(s, 88) == 0)?;
    field(left, base, 89, 1, Reason::Value, byte_at(s, 89) == 0)
}

#[tactic(auto, unfolding(channel::specs::Rule::dmr_rule), using(fields::proofs::Laws::ok_then, fields::proofs::Laws::err_then))]
fn validate_dmr(s: &[u8], base: usize, named: bool) -> Result<(), Refusal>
    requires { base < 2 ^ 62 }
    ensures { result ≡ dmr_rule s.now base named }
{
    let left = s.len();
    field(left, base, 85, 1, Reason::Value, true)?;
    field(left, base, 86, 1, Reason::Value, slot_ok(byte_at(s, 86)))?;
    field(left, base, DMR_CONTACT_AT, 2, Reason::ContactIndex, named)?;
    field(left, base, 89, 1, Reason::Value, byte_at(s, 89) == 0)
}

#[tactic(auto, unfolding(channel::specs::Rule::m17_rule), using(fields::proofs::Laws::ok_then, fields::proofs::Laws::err_then))]
fn validate_m17(s: &[u8], base: usize, named: bool) -> Result<(), Refusal>
    requires { base < 2 ^ 62 }
    ensures { result ≡ m17_rule s.now base named }
{
    let left = s.len();
    let h = Nibbles::from(byte_at(s, 86));
    field(left, base, 85, 1, Reason::Value, true)?;
    field(
        left,
        base,
        86,
        1,
        Reason::Value,
        operation_ok(h.high, h.low),
    )?;
    field(left, base, 87, 1, Reason::Value, byte_at(s, 87) <= 1)?;
    field(left, base, M17_CONTACT_AT, 2, Reason::ContactIndex, named)
}

#[tactic(auto, unfolding(channel::specs::Rule::info_rule))]
fn validate_info(s: &[u8], base: usize, named: bool) -> Result<(), Refusal>
    requires { base < 2 ^ 62 }
    ensures { result ≡ info_rule s.now base named }
{
    let mode = byte_at(s, 0);
    if mode == channel::FM {
        return validate_fm(s, base);
    }
    if mode == channel::DMR {
        return validate_dmr(s, base, named);
    }
    validate_m17(s, base, named)
}

// Whether the traits byte is within its rule comes in as `traits`.
#[tactic(auto, using(fields::proofs::Laws::ok_then, fields::proofs::Laws::err_then))]
pub fn validate_by(s: &[u8], base: usize, named: bool, traits: bool) -> Result<(), Refusal>
    requires { base < 2 ^ 62 }
    ensures { result ≡ channel_rule_by (head_rule_by traits s.now base) s.now base named }
{
    validate_head(s, base, traits)?;
    validate_texts(s, base)?;
    validate_location(s, base)?;
    validate_info(s, base, named)
}

#[tactic(auto, unfolding(channel::specs::Rule::channel_rule, channel::specs::Rule::head_rule))]
pub fn validate(s: &[u8], base: usize, named: bool) -> Result<(), Refusal>
    requires { base < 2 ^ 62 }
    ensures { result ≡ channel_rule s.now base named }
{
    validate_by(s, base, named, bits::number_flag_ok(byte_at(s, 1)))
}
