// Whether all channels of a file are valid, asked before the first bad one is looked for. Nothing branches on the channels' bytes.
ghost use Rattle.std.specs.Prelude.{◌≡◌, true, cond, ◌+◌, ◌≤◌, length, get_or};
ghost use Rattle.fields.specs.Bytes.{num};
ghost use Rattle.fields.specs.Rule.{Valid, is_valid};
ghost use Rattle.layout.specs.Places.{contact_count};
ghost use Rattle.channel.specs.Values.{contact_index_of, contact_index_place};
ghost use Rattle.file_rule.specs.File.{names_contact, channel_at, channels_rule};

use channel::values::contact_index_place;
use fields::numbers::{byte_at, le16};
use format::sizes::CHANNEL_SIZE;
use layout::places::{channel_count, channel_place, contact_count, contact_place};

// The contact to look at: 0 where the index names none.
fn row_of(index: usize, below: bool) -> usize
    ensures { (result ≡ cond below index 0) × (result ≤ index) }
{
    if below { index } else { 0 }
}

// Whether the number in the two bytes of a contact index is 65,535 or names a contact of the channel's own mode. Of an FM channel and of a mode
// that is not there the answer is not read.
pub fn index_valid(f: &[u8], s: &[u8], contacts: usize) -> bool
    requires { (length s.now ≡ 90) × (contacts ≡ contact_count f.now) }
    ensures { result ≡ names_contact f.now (get_or s.now 0 0)
        (contact_index_of (num s.now (contact_index_place (get_or s.now 0 0)) 2)) }
{
    let mode = s[0];
    let index = le16(s, contact_index_place(mode)) as usize;
    let below = index < contacts;
    let kind = byte_at(f, contact_place(row_of(index, below)) + 32);
    (index == 65535) | (below & (kind == mode))
}

pub(crate) fn channel_valid(f: &[u8], p: usize, contacts: usize) -> bool
    requires { (p + 90 ≤ length f.now) × (contacts ≡ contact_count f.now) }
    ensures { result ≡ is_valid (channel_at f.now p) }
{
    let s = &f[p..p + CHANNEL_SIZE];
    channel_validation::whole::is_valid(s, index_valid(f, s, contacts))
}

// Yes only where every channel is valid.
#[tactic(auto, unfolding(file_rule::specs::File::channels_rule), using(fields::proofs::Laws::valid_more, fields::proofs::Laws::valid_all, fields::proofs::Laws::valid_none))]
pub(crate) fn channels_valid(f: &[u8]) -> bool
    ensures { result ≡ true → channels_rule f.now ≡ Valid }
{
    let contacts = contact_count(f);
    let channels = channel_count(f);
    let start = channel_place(f, 0);
    if f.len() < start + channels * CHANNEL_SIZE {
        return false;
    }
    let mut ok = true;
    for i in 0..channels {
        ok &= channel_valid(f, start + i * CHANNEL_SIZE, contacts);
    }
    ok
}
