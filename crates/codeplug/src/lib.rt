// The codeplug file's parts, read (document 01, "The file").
#![tactic(auto)]

pub mod bank_entries; // bank_entries.rt: the entries of bank n
pub mod bytes; // bytes.rt: the bytes of record n
pub mod read; // read.rt: the header, contact n, channel n and bank n of a file

use layout::Counts;

// The texts stand as in the file: a text, then zeros.
#[derive(Clone, Copy)]
pub struct Header {
    pub author: [u8; 32],
    pub description: [u8; 32],
    pub timestamp: u64,
    pub counts: Counts,
}

// A bank's name and how many entries it has.
#[derive(Clone, Copy)]
pub struct Bank {
    pub name: [u8; 32],
    pub entries: u16,
}
