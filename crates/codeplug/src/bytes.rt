// The bytes of record n beside its validity; none beside a refusal.
ghost use Rattle.std.specs.Prelude.{◌≡◌, ◌≤◌, length};
ghost use Rattle.fields.specs.Bytes.{part};
ghost use Rattle.layout.specs.Places.{contact_place, channel_place};
ghost use Rattle.codeplug.specs.Read.{bytes_answer};
ghost use Rattle.codeplug.specs.Prevalidated.{table_place};
ghost use Rattle.codeplug.specs.There.{ContactThere, ChannelThere, BankThere};
ghost use Rattle.fields.specs.Rule.{Valid};

use format::refusals::Refusal;
use format::sizes::{BANK_HEAD_SIZE, CHANNEL_SIZE, CONTACT_SIZE};
use layout::places::{channel_place, contact_place, offset_place, offset_target, record_bytes};

#[tactic(auto, unfolding(crate::specs::Read::bytes_answer))]
pub fn contact_bytes(f: &[u8], n: usize, v: Result<(), Refusal>) -> &[u8]
    requires { v ≡ Valid → ContactThere f.now n }
    ensures { (result.now ≡ bytes_answer v (part f.now (contact_place n) 39)) × (v ≡ Valid → 39 ≤ length result.now) }
{
    match v {
        Ok(()) => record_bytes(f, contact_place(n), CONTACT_SIZE),
        Err(_) => &f[..0],
    }
}

#[tactic(auto, unfolding(crate::specs::Read::bytes_answer))]
pub fn channel_bytes(f: &[u8], n: usize, v: Result<(), Refusal>) -> &[u8]
    requires { v ≡ Valid → ChannelThere f.now n }
    ensures { (result.now ≡ bytes_answer v (part f.now (channel_place f.now n) 90)) × (v ≡ Valid → length result.now ≡ 90) }
{
    match v {
        Ok(()) => record_bytes(f, channel_place(f, n), CHANNEL_SIZE),
        Err(_) => &f[..0],
    }
}

// A bank's name and entry count, where the offset table leads.
#[tactic(auto, unfolding(crate::specs::Read::bytes_answer, crate::specs::Prevalidated::table_place))]
pub fn bank_bytes(f: &[u8], n: usize, v: Result<(), Refusal>) -> &[u8]
    requires { v ≡ Valid → BankThere f.now n }
    ensures { (result.now ≡ bytes_answer v (part f.now (table_place f.now n) 34)) × (v ≡ Valid → 34 ≤ length result.now) }
{
    match v {
        Ok(()) => record_bytes(f, offset_target(f, offset_place(f, n)), BANK_HEAD_SIZE),
        Err(_) => &f[..0],
    }
}
