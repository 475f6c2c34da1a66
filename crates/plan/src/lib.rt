// A change of a codeplug's bytes, planned before anything is written.
#![tactic(auto)]

pub mod numbers; // numbers.rt: numbers as small arrays, and a new bank

use renumber::shift::{Growth, Shift};

// Bytes in place of the `gone` bytes at `at`, and the count at `counter` that goes with it.
#[derive(Clone, Copy)]
pub struct Counted {
    pub counter: usize,
    pub count: u16,
    pub at: usize,
    pub gone: usize,
}

// Offsets of the table, from `start` on, that move.
#[derive(Clone, Copy)]
pub struct Table {
    pub start: usize,
    pub many: usize,
    pub growth: Growth,
}

// The bytes of a bank.
#[derive(Clone, Copy)]
pub struct Block {
    pub at: usize,
    pub size: usize,
}

#[derive(Clone, Copy)]
pub enum Plan {
    // an edit's bytes over those at a place
    Replace(usize),
    // contact indexes follow, then a cut
    Contacts(Shift, Counted),
    // bank entries follow, then a cut
    Channels(Shift, Counted),
    // offsets follow, then a cut
    Entries(Table, Counted),
    // offsets follow, a bank is put at a place, then its offset into the table
    AddBank(Table, usize, u32, Counted),
    // offsets follow, a bank goes, then its offset
    DropBank(Table, Block, Counted),
}
