// The plan of an edit: which bytes it changes, and how.
#![tactic(auto)]

ghost use Rattle.std.specs.Prelude.{◌≡◌, ◌≤◌};
ghost use Rattle.model.specs.declared.Kind.TheVariants as kind;
ghost use Rattle.layout.specs.Places.{bank_count};
ghost use Rattle.edit_plan.specs.Planned.{Ready, Makes, table_from};

use format::sizes::{
    BANK_COUNT_AT, BANK_ENTRY_SIZE, BANK_HEAD_SIZE, CHANNEL_COUNT_AT, CHANNEL_SIZE,
    CONTACT_COUNT_AT, CONTACT_SIZE, ENTRY_COUNT_AT, OFFSET_SIZE,
};
use layout::places::{
    bank_count, banks_place, channel_count, channel_place, contact_count, contact_place,
    entry_count, offset_place,
};
use model::Kind;
use model::places::bank_place;
use plan::{Block, Counted, Plan, Table};
use renumber::shift::{Growth, Shift};

// Offsets of bank i and those behind it.
fn table_from(f: &[u8], i: usize, growth: Growth) -> Table
    requires { i ≤ bank_count f.now }
    ensures { result ≡ table_from f.now i growth }
{
    let many = bank_count(f) - i;
    let start = offset_place(f, i);
    Table {
        start,
        many,
        growth,
    }
}

// ---- contacts

fn insert_contact(f: &[u8], i: usize) -> Plan
    requires { Ready kind.InsertContact i 0 f.now }
    ensures { Makes result kind.InsertContact i 0 f.now }
{
    let count = (contact_count(f) + 1) as u16;
    let at = contact_place(i);
    Plan::Contacts(
        Shift::Raise(i),
        Counted {
            counter: CONTACT_COUNT_AT,
            count,
            at,
            gone: 0,
        },
    )
}

fn remove_contact(f: &[u8], i: usize) -> Plan
    requires { Ready kind.RemoveContact i 0 f.now }
    ensures { Makes result kind.RemoveContact i 0 f.now }
{
    let count = (contact_count(f) - 1) as u16;
    let at = contact_place(i);
    Plan::Contacts(
        Shift::Lower(i),
        Counted {
            counter: CONTACT_COUNT_AT,
            count,
            at,
            gone: CONTACT_SIZE,
        },
    )
}

// ---- channels

fn replace_channel(f: &[u8], i: usize) -> Plan
    requires { Ready kind.ReplaceChannel i 0 f.now }
    ensures { Makes result kind.ReplaceChannel i 0 f.now }
{
    Plan::Replace(channel_place(f, i))
}

fn insert_channel(f: &[u8], i: usize) -> Plan
    requires { Ready kind.InsertChannel i 0 f.now }
    ensures { Makes result kind.InsertChannel i 0 f.now }
{
    let count = (channel_count(f) + 1) as u16;
    let at = channel_place(f, i);
    Plan::Channels(
        Shift::Raise(i),
        Counted {
            counter: CHANNEL_COUNT_AT,
            count,
            at,
            gone: 0,
        },
    )
}

fn remove_channel(f: &[u8], i: usize) -> Plan
    requires { Ready kind.RemoveChannel i 0 f.now }
    ensures { Makes result kind.RemoveChannel i 0 f.now }
{
    let count = (channel_count(f) - 1) as u16;
    let at = channel_place(f, i);
    Plan::Channels(
        Shift::Lower(i),
        Counted {
            counter: CHANNEL_COUNT_AT,
            count,
            at,
            gone: CHANNEL_SIZE,
        },
    )
}

// ---- banks and their entries

fn rename_bank(f: &[u8], i: usize) -> Plan
    requires { Ready kind.RenameBank i 0 f.now }
    ensures { Makes result kind.RenameBank i 0 f.now }
{
    Plan::Replace(bank_place(f, i))
}

fn insert_bank(f: &[u8], i: usize) -> Plan
    requires { Ready kind.InsertBank i 0 f.now }
    ensures { Makes result kind.InsertBank i 0 f.now }
{
    let at = bank_place(f, i);
    let offset = (at - banks_place(f)) as u32;
    let count = (bank_count(f) + 1) as u16;
    let place = offset_place(f, i);
    Plan::AddBank(
        table_from(f, i, Growth::More(BANK_HEAD_SIZE as u32)),
        at,
        offset,
        Counted {
            counter: BANK_COUNT_AT,
            count,
            at: place,
            gone: 0,
        },
    )
}

fn remove_bank(f: &[u8], i: usize) -> Plan
    requires { Ready kind.RemoveBank i 0 f.now }
    ensures { Makes result kind.RemoveBank i 0 f.now }
{
    let at = bank_place(f, i);
    let size = BANK_HEAD_SIZE + entry_count(f, at) * BANK_ENTRY_SIZE;
    let count = (bank_count(f) - 1) as u16;
    let place = offset_place(f, i);
    Plan::DropBank(
        table_from(f, i + 1, Growth::Fewer(size as u32)),
        Block { at, size },
        Counted {
            counter: BANK_COUNT_AT,
            count,
            at: place,
            gone: OFFSET_SIZE,
        },
    )
}

fn insert_entry(f: &[u8], i: usize, j: usize) -> Plan
    requires { Ready kind.InsertEntry i j f.now }
    ensures { Makes result kind.InsertEntry i j f.now }
{
    let bank = bank_place(f, i);
    let count = (entry_count(f, bank) + 1) as u16;
    Plan::Entries(
        table_from(f, i + 1, Growth::More(2)),
        Counted {
            counter: bank + ENTRY_COUNT_AT,
            count,
            at: bank + BANK_HEAD_SIZE + j * BANK_ENTRY_SIZE,
            gone: 0,
        },
    )
}

fn remove_entry(f: &[u8], i: usize, j: usize) -> Plan
    requires { Ready kind.RemoveEntry i j f.now }
    ensures { Makes result kind.RemoveEntry i j f.now }
{
    let bank = bank_place(f, i);
    let count = (entry_count(f, bank) - 1) as u16;
    Plan::Entries(
        table_from(f, i + 1, Growth::Fewer(2)),
        Counted {
            counter: bank + ENTRY_COUNT_AT,
            count,
            at: bank + BANK_HEAD_SIZE + j * BANK_ENTRY_SIZE,
            gone: 2,
        },
    )
}

// The plan of an edit whose places are there and whose count may grow.
pub fn plan_of(f: &[u8], k: Kind, i: usize, j: usize) -> Plan
    requires { Ready k i j f.now }
    ensures { Makes result k i j f.now }
{
    match k {
        Kind::InsertContact => insert_contact(f, i),
        Kind::RemoveContact => remove_contact(f, i),
        Kind::ReplaceContact => Plan::Replace(contact_place(i)),
        Kind::InsertChannel => insert_channel(f, i),
        Kind::RemoveChannel => remove_channel(f, i),
        Kind::ReplaceChannel => replace_channel(f, i),
        Kind::InsertBank => insert_bank(f, i),
        Kind::RemoveBank => remove_bank(f, i),
        Kind::RenameBank => rename_bank(f, i),
        Kind::InsertEntry => insert_entry(f, i, j),
        Kind::RemoveEntry => remove_entry(f, i, j),
        Kind::SetHeader => Plan::Replace(10),
    }
}
