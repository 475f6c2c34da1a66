// A change made in place: indexes or offsets first, then the cuts, then the count.
#![tactic(auto)]

ghost use Rattle.std.specs.Prelude.{◌≡◌, ◌+◌, ◌≤◌, ◌<◌, ◌^◌, length, take};
ghost use Rattle.journal.specs.Machine.{holding};
ghost use Rattle.plan.specs.Plan.{counted, planned};
ghost use Rattle.plan.specs.declared.Plan.TheVariants as plan;
ghost use Rattle.plan.specs.Fits.{Fits};
ghost use Rattle.plan_apply.specs.Room.{HasRoom, CutHasRoom, PlanHasRoom};

use buffers::splicing::splice;
use fields::put::{put, put_le16};
use format::sizes::BANK_HEAD_SIZE;
use layout::places::{bank_count, banks_place, channel_count, channel_place};
use plan::numbers::{bytes32, empty_bank};
use plan::{Block, Counted, Plan, Table};
use renumber::shift::Shift;
use renumber_apply::{move_contacts, move_entries, move_offsets};

// A cut and its count.
fn make_counted(d: &mut [u8], len: usize, c: Counted, r: &[u8])
    requires { CutHasRoom c r.now len d.old }
    ensures { d.new ≡ holding d.old len (counted c r.now (take len d.old)) }
{
    splice(d, len, c.at, c.gone, r);
    put_le16(d, c.counter, c.count);
}

fn make_contacts(d: &mut [u8], len: usize, s: Shift, c: Counted, r: &[u8])
    requires { (Fits (plan.Contacts s c) r.now (take len d.old)) × (HasRoom c r.now len d.old) }
    ensures { d.new ≡ holding d.old len (planned (plan.Contacts s c) r.now (take len d.old)) }
{
    let start = channel_place(&d[..len], 0);
    let n = channel_count(&d[..len]);
    move_contacts(&mut d[..len], start, n, s);
    make_counted(d, len, c, r);
}

fn make_channels(d: &mut [u8], len: usize, s: Shift, c: Counted, r: &[u8])
    requires { (Fits (plan.Channels s c) r.now (take len d.old)) × ((HasRoom c r.now len d.old) × (len < 2 ^ 32)) }
    ensures { d.new ≡ holding d.old len (planned (plan.Channels s c) r.now (take len d.old)) }
{
    let start = banks_place(&d[..len]);
    let n = bank_count(&d[..len]);
    move_entries(&mut d[..len], start, n, s);
    make_counted(d, len, c, r);
}

fn make_entries(d: &mut [u8], len: usize, t: Table, c: Counted, r: &[u8])
    requires { (Fits (plan.Entries t c) r.now (take len d.old)) × (HasRoom c r.now len d.old) }
    ensures { d.new ≡ holding d.old len (planned (plan.Entries t c) r.now (take len d.old)) }
{
    let growth = t.growth;
    move_offsets(&mut d[..len], t.start, t.many, growth);
    make_counted(d, len, c, r);
}

#[tactic(auto, unfolding(plan::specs::Fits::Fits))]
fn make_bank(d: &mut [u8], len: usize, t: Table, at: usize, offset: u32, c: Counted, r: &[u8])
    requires { (Fits (plan.AddBank t at offset c) r.now (take len d.old)) × (len + 38 ≤ length d.old) }
    ensures { d.new ≡ holding d.old len (planned (plan.AddBank t at offset c) r.now (take len d.old)) }
{
    let bank = empty_bank(r);
    let bytes = bytes32(offset);
    let growth = t.growth;
    move_offsets(&mut d[..len], t.start, t.many, growth);
    splice(d, len, at, 0, &bank);
    make_counted(d, len + BANK_HEAD_SIZE, c, &bytes);
}

fn drop_bank(d: &mut [u8], len: usize, t: Table, b: Block, c: Counted, r: &[u8])
    requires { (Fits (plan.DropBank t b c) r.now (take len d.old)) × (len ≤ length d.old) }
    ensures { d.new ≡ holding d.old len (planned (plan.DropBank t b c) r.now (take len d.old)) }
{
    let size = b.size;
    let growth = t.growth;
    move_offsets(&mut d[..len], t.start, t.many, growth);
    splice(d, len, b.at, size, r);
    make_counted(d, len - size, c, r);
}

// Makes a planned change of the len bytes in front.
pub fn make(d: &mut [u8], len: usize, p: Plan, r: &[u8])
    requires { PlanHasRoom p r.now len d.old }
    ensures { d.new ≡ holding d.old len (planned p r.now (take len d.old)) }
{
    match p {
        Plan::Replace(at) => put(d, at, r),
        Plan::Contacts(s, c) => make_contacts(d, len, s, c, r),
        Plan::Channels(s, c) => make_channels(d, len, s, c, r),
        Plan::Entries(t, c) => make_entries(d, len, t, c, r),
        Plan::AddBank(t, at, offset, c) => make_bank(d, len, t, at, offset, c, r),
        Plan::DropBank(t, b, c) => drop_bank(d, len, t, b, c, r),
    }
}
