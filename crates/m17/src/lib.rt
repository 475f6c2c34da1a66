// M17 addresses: which numbers are addresses, and what they mean (document 01, "M17 addresses"; document 02, [10]).
#![tactic(auto)]

ghost use Rattle.std.specs.Prelude.{◌≡◌};
ghost use Rattle.m17.specs.Edition.{edition_of};
ghost use Rattle.m17.specs.Address.{address_ok, address_for, address_number, address_valid, is_broadcast, is_callsign, last_of};

// By which edition of the M17 specification addresses are read: the newer has hash addresses.
#[derive(Clone, Copy)]
pub enum Edition {
    Older,
    Newer,
}

// The number of the newer edition.
const NEWER: u32 = 1;

// The edition by its number: every number but the newer's is the older.
pub fn edition_of(n: u32) -> Edition
    ensures { result ≡ edition_of n }
{
    if n == NEWER {
        Edition::Newer
    } else {
        Edition::Older
    }
}

// What an address field of a contact means. No Option: broadcast is an address, not the want of one.
#[derive(Clone, Copy)]
pub enum Address {
    // A callsign, by its number: 1 to 262,143,999,999,999. By the newer edition a hash address too: 262,144,000,000,000 to 268,697,599,999,999.
    Callsign(u64),
    Broadcast,
}

// What a number stands for: a text, by its length in the buffer, or broadcast, an address that has none: so no Option.
#[derive(Clone, Copy, Debug, PartialEq, Eq)]
pub enum Decoded {
    Text(usize),
    Broadcast,
}

// Nine dots.
pub const LAST_PLAIN: u64 = 262_143_999_999_999;

// The hash sign alone.
pub const FIRST_HASH: u64 = 262_144_000_000_000;

// A hash sign and eight dots.
const LAST_HASH: u64 = 268_697_599_999_999;

pub const BROADCAST: u64 = 0xFFFF_FFFF_FFFF;

// The last number that has a text.
fn last_of(edition: Edition) -> u64
    ensures { result ≡ last_of edition }
{
    match edition {
        Edition::Older => LAST_PLAIN,
        Edition::Newer => LAST_HASH,
    }
}

// Whether a number has a text: a callsign's or, by the newer edition, a hash address's.
pub fn is_callsign(n: u64, edition: Edition) -> bool
    ensures { result ≡ is_callsign edition n }
{
    let last = last_of(edition);
    1 <= n && n <= last
}

// Whether a number is an address that a contact may hold.
pub fn address_ok(n: u64, edition: Edition) -> bool
    ensures { result ≡ address_ok edition n }
{
    is_callsign(n, edition) || n == BROADCAST
}

// The address that a valid number means.
pub fn address_for(n: u64) -> Address
    ensures { result ≡ address_for n }
{
    if n == BROADCAST {
        Address::Broadcast
    } else {
        Address::Callsign(n)
    }
}

pub fn address_number(a: Address) -> u64
    ensures { result ≡ address_number a }
{
    match a {
        Address::Callsign(n) => n,
        Address::Broadcast => BROADCAST,
    }
}

pub fn is_broadcast(a: Address) -> bool
    ensures { result ≡ is_broadcast a }
{
    match a {
        Address::Callsign(_) => false,
        Address::Broadcast => true,
    }
}

// Whether a contact may hold this address: a callsign's number is one.
pub fn address_valid(a: Address, edition: Edition) -> bool
    ensures { result ≡ address_valid edition a }
{
    match a {
        Address::Callsign(n) => is_callsign(n, edition),
        Address::Broadcast => true,
    }
}
