// Counts, and where the parts of a file stand.
ghost use Rattle.std.specs.Prelude.{◌≡◌, ◌+◌, ◌*◌, ◌<◌, ◌^◌};
ghost use Rattle.fields.specs.Bytes.{part};
ghost use Rattle.layout.specs.Banks.{entry_count, offset_target, next_bank};
ghost use Rattle.layout.specs.Places.{contact_count, channel_count, bank_count, contact_place, channel_place, offset_place, banks_place, counts_of};

use crate::Counts;
use fields::numbers::{le16, le32};
use format::sizes::{
    BANK_COUNT_AT, BANK_ENTRY_SIZE, BANK_HEAD_SIZE, CHANNEL_COUNT_AT, CHANNEL_SIZE,
    CONTACT_COUNT_AT, CONTACT_SIZE, ENTRY_COUNT_AT, HEADER_SIZE, OFFSET_SIZE,
};

// The w bytes of f at p, fewer where f ends.
pub fn record_bytes(f: &[u8], p: usize, w: usize) -> &[u8]
    ensures { result.now ≡ part f.now p w }
{
    let n = f.len();
    if n <= p {
        return &f[n..];
    }
    if w <= n - p {
        return &f[p..p + w];
    }
    &f[p..]
}

pub fn contact_count(f: &[u8]) -> usize
    ensures { (result ≡ contact_count f.now) × (result < 65536) }
{
    le16(f, CONTACT_COUNT_AT) as usize
}

pub fn channel_count(f: &[u8]) -> usize
    ensures { (result ≡ channel_count f.now) × (result < 65536) }
{
    le16(f, CHANNEL_COUNT_AT) as usize
}

pub fn bank_count(f: &[u8]) -> usize
    ensures { (result ≡ bank_count f.now) × (result < 65536) }
{
    le16(f, BANK_COUNT_AT) as usize
}

pub fn counts_of(f: &[u8]) -> Counts
    ensures { result ≡ counts_of f.now }
{
    Counts {
        contacts: le16(f, CONTACT_COUNT_AT),
        channels: le16(f, CHANNEL_COUNT_AT),
        banks: le16(f, BANK_COUNT_AT),
    }
}

pub fn contact_place(i: usize) -> usize
    requires { i < 65536 }
    ensures { (result ≡ contact_place i) × (result < 2 ^ 22) }
{
    HEADER_SIZE + i * CONTACT_SIZE
}

pub fn channel_place(f: &[u8], i: usize) -> usize
    requires { i < 65536 }
    ensures { (result ≡ channel_place f.now i) × (result < 2 ^ 24) }
{
    contact_place(contact_count(f)) + i * CHANNEL_SIZE
}

pub fn offset_place(f: &[u8], i: usize) -> usize
    requires { i < 65536 }
    ensures { (result ≡ offset_place f.now i) × (result < 2 ^ 25) }
{
    channel_place(f, channel_count(f)) + i * OFFSET_SIZE
}

pub fn banks_place(f: &[u8]) -> usize
    ensures { (result ≡ banks_place f.now) × (result < 2 ^ 25) }
{
    offset_place(f, bank_count(f))
}

pub fn entry_count(f: &[u8], p: usize) -> usize
    requires { p < 2 ^ 60 }
    ensures { (result ≡ entry_count f.now p) × (result < 65536) }
{
    le16(f, p + ENTRY_COUNT_AT) as usize
}

// Where the offset at t leads.
pub fn offset_target(f: &[u8], t: usize) -> usize
    requires { t < 2 ^ 60 }
    ensures { (result ≡ offset_target f.now t) × (result < 2 ^ 33) }
{
    banks_place(f) + le32(f, t) as usize
}

pub fn next_bank(f: &[u8], p: usize) -> usize
    requires { p < 2 ^ 60 }
    ensures { (result ≡ next_bank f.now p) × (result < p + 2 ^ 18) }
{
    p + BANK_HEAD_SIZE + entry_count(f, p) * BANK_ENTRY_SIZE
}
