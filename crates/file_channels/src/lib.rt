// The channels of a file, validated: each, and the first bad one.
#![tactic(auto)]

pub mod whole; // whole.rt: whether all channels are valid

ghost use Rattle.std.specs.Prelude.{◌≡◌, ◌<◌, ◌^◌};
ghost use Rattle.file_rule.specs.File.{names_contact, index_ok, channel_at, channels_rule};

use crate::whole::{channel_valid, channels_valid};
use channel::values::named_contact;
use fields::numbers::byte_at;
use format::refusals::Refusal;
use format::sizes::CHANNEL_SIZE;
use layout::places::{channel_count, channel_place, contact_count, contact_place, record_bytes};

// Whether a channel's contact index names a contact of the channel's mode.
#[tactic(auto, unfolding(file_rule::specs::File::names_contact))]
fn names_contact(f: &[u8], mode: u8, c: Option<u16>) -> bool
    ensures { result ≡ names_contact f.now mode c }
{
    match c {
        None => true,
        Some(i) => {
            let at = i as usize;
            at < contact_count(f) && byte_at(f, contact_place(at) + 32) == mode
        }
    }
}

#[tactic(auto, unfolding(file_rule::specs::File::index_ok))]
pub fn index_ok(f: &[u8], s: &[u8]) -> bool
    ensures { result ≡ index_ok f.now s.now }
{
    names_contact(f, byte_at(s, 0), named_contact(s))
}

// The channel at p, field by field.
fn channel_fields(f: &[u8], p: usize) -> Result<(), Refusal>
    requires { p < 2 ^ 62 }
    ensures { result ≡ channel_at f.now p }
{
    let s = record_bytes(f, p, CHANNEL_SIZE);
    channel_validation::validate(s, p, index_ok(f, s))
}

// The channel at p: its fields are looked at one by one only where it is not valid.
#[tactic(auto, using(fields::proofs::Laws::valid_by_test))]
pub fn channel_at(f: &[u8], p: usize) -> Result<(), Refusal>
    requires { p < 2 ^ 62 }
    ensures { result ≡ channel_at f.now p }
{
    if p + CHANNEL_SIZE <= f.len() {
        if channel_valid(f, p, contact_count(f)) {
            return Ok(());
        }
    }
    channel_fields(f, p)
}

// The first bad channel.
#[tactic(auto, unfolding(file_rule::specs::File::channels_rule), using(fields::proofs::Laws::each_more, fields::proofs::Laws::each_refused, fields::proofs::Laws::each_none))]
fn find_channel(f: &[u8]) -> Result<(), Refusal>
    ensures { result ≡ channels_rule f.now }
{
    let start = channel_place(f, 0);
    for i in 0..channel_count(f) {
        channel_fields(f, start + i * CHANNEL_SIZE)?;
    }
    Ok(())
}

pub fn validate_channels(f: &[u8]) -> Result<(), Refusal>
    ensures { result ≡ channels_rule f.now }
{
    if channels_valid(f) {
        return Ok(());
    }
    find_channel(f)
}
