// A codeplug as lists of records, its file, and the twelve edits on it: definitions and their laws; the kinds of edits.
#![tactic(auto)]

pub mod places; // places.rt: banks of a file by their offsets

ghost use Rattle.std.specs.Prelude.{◌≡◌};
ghost use Rattle.model.specs.EditRules.{is_index};
ghost use Rattle.model.specs.Kinds.{kind_of, record_length};

use format::sizes::{BANK_ENTRY_SIZE, CHANNEL_SIZE, CONTACT_SIZE, SET_HEADER_SIZE, TEXT_SIZE};

// The twelve kinds of edits, in the order of document 01.
#[derive(Clone, Copy)]
pub enum Kind {
    InsertContact,
    RemoveContact,
    ReplaceContact,
    InsertChannel,
    RemoveChannel,
    ReplaceChannel,
    InsertBank,
    RemoveBank,
    RenameBank,
    InsertEntry,
    RemoveEntry,
    SetHeader,
}

// The kind of a number, 1 to 12.
#[tactic(auto, unfolding(crate::specs::Kinds::kind_of))]
pub fn kind_of(n: usize) -> Option<Kind>
    ensures { result ≡ kind_of n }
{
    match n {
        1 => Some(Kind::InsertContact),
        2 => Some(Kind::RemoveContact),
        3 => Some(Kind::ReplaceContact),
        4 => Some(Kind::InsertChannel),
        5 => Some(Kind::RemoveChannel),
        6 => Some(Kind::ReplaceChannel),
        7 => Some(Kind::InsertBank),
        8 => Some(Kind::RemoveBank),
        9 => Some(Kind::RenameBank),
        10 => Some(Kind::InsertEntry),
        11 => Some(Kind::RemoveEntry),
        12 => Some(Kind::SetHeader),
        _ => None,
    }
}

// The length of the record that an edit carries.
pub fn record_length(k: Kind) -> usize
    ensures { result ≡ record_length k }
{
    match k {
        Kind::InsertContact | Kind::ReplaceContact => CONTACT_SIZE,
        Kind::InsertChannel | Kind::ReplaceChannel => CHANNEL_SIZE,
        Kind::InsertBank | Kind::RenameBank => TEXT_SIZE,
        Kind::InsertEntry => BANK_ENTRY_SIZE,
        Kind::SetHeader => SET_HEADER_SIZE,
        Kind::RemoveContact | Kind::RemoveChannel | Kind::RemoveBank | Kind::RemoveEntry => 0,
    }
}

// Whether a channel's contact index is i.
#[tactic(auto, unfolding(crate::specs::EditRules::is_index))]
pub fn is_index(c: Option<u16>, i: usize) -> bool
    ensures { result ≡ is_index i c }
{
    match c {
        None => false,
        Some(x) => x as usize == i,
    }
}
