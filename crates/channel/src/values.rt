// The rules of single values of a channel.
ghost use Rattle.std.specs.Prelude.{◌≡◌, ◌&&◌, ◌≤◌};
ghost use Rattle.bits.specs.Packed.{signed_of};
ghost use Rattle.channel.specs.Rule.{index_at, named_contact};
ghost use Rattle.channel.specs.Values.{traits_of, traits_number_flag, latitude_ok, latitude_fraction_ok, fraction_ok, slot_ok, operation_ok, encryption_ok, contact_index_place, contact_index_of, contact_index_number};

use crate::Traits;
use bits::NumberFlag;
use fields::numbers::{byte_at, le16};
use format::sizes::{DMR_CONTACT_AT, M17_CONTACT_AT};

impl From<u8> for Traits {
    ghost from_gives = { λ b t. t ≡ traits_of b };

    #[tactic(auto, unfolding(crate::specs::Values::traits_of))]
    fn from(b: u8) -> Traits {
        let c = NumberFlag::from(b);
        Traits {
            bandwidth: c.number,
            receive_only: c.flag,
        }
    }
}

impl From<Traits> for NumberFlag {
    ghost from_gives = { λ t c. c ≡ traits_number_flag t };

    #[tactic(auto, unfolding(crate::specs::Values::traits_number_flag))]
    fn from(t: Traits) -> NumberFlag {
        NumberFlag {
            number: t.bandwidth,
            flag: t.receive_only,
        }
    }
}

// Of a latitude's floor, by its byte: -90 to 90.
pub fn latitude_ok(b: u8) -> bool
    ensures { result ≡ latitude_ok (signed_of b) }
{
    b <= 90 || 166 <= b
}

pub fn fraction_ok(x: u16) -> bool
    ensures { result ≡ fraction_ok x }
{
    x <= 9999
}

// Of a latitude's ten-thousandths, over the floor's byte: 0 to 9,999, and 0 where the floor is 90.
pub fn latitude_fraction_ok(floor: u8, x: u16) -> bool
    ensures { result ≡ latitude_fraction_ok (signed_of floor) x }
{
    if floor == 90 { x == 0 } else { x <= 9999 }
}

pub fn slot_ok(x: u8) -> bool
    ensures { result ≡ slot_ok x }
{
    1 <= x && x <= 2
}

// Operation 1 to 3 with encryption 0 to 2.
#[tactic(auto, unfolding(crate::specs::Values::operation_ok, crate::specs::Values::encryption_ok))]
pub fn operation_ok(operation: u8, encryption: u8) -> bool
    ensures { result ≡ operation_ok operation && encryption_ok encryption }
{
    1 <= operation && operation <= 3 && encryption <= 2
}

// Where a channel of this mode has its contact index; an FM channel has none.
pub fn contact_index_place(mode: u8) -> usize
    ensures { (result ≡ contact_index_place mode) × (result ≤ 88) }
{
    if mode == crate::DMR {
        DMR_CONTACT_AT
    } else {
        M17_CONTACT_AT
    }
}

pub fn contact_index_of(x: u16) -> Option<u16>
    ensures { result ≡ contact_index_of x }
{
    if x == 65535 { None } else { Some(x) }
}

#[tactic(auto, unfolding(crate::specs::Values::contact_index_number))]
pub fn contact_index_number(c: Option<u16>) -> u16
    ensures { result ≡ contact_index_number c }
{
    c.unwrap_or(65535)
}

// The index at k of a channel; nobody where its two bytes are not all there.
fn index_at(s: &[u8], k: usize) -> Option<u16>
    requires { k ≤ 88 }
    ensures { result ≡ index_at s.now k }
{
    if s.len() < k + 2 {
        return None;
    }
    contact_index_of(le16(s, k))
}

// The contact index of a DMR or M17 channel, where the record holds it whole; any other record has none.
pub fn named_contact(s: &[u8]) -> Option<u16>
    ensures { result ≡ named_contact s.now }
{
    let m = byte_at(s, 0);
    if m == crate::DMR {
        return index_at(s, DMR_CONTACT_AT);
    }
    if m == crate::M17 {
        return index_at(s, M17_CONTACT_AT);
    }
    None
}
