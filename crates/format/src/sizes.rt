// Lengths in bytes, and places in a record (document 01, "The file").
// the longest file
pub const FILE_MAX: usize = 1_048_576;
// the header, and the shortest file
pub const HEADER_SIZE: usize = 88;
// a text field
pub const TEXT_SIZE: usize = 32;
// two text fields, one behind the other
pub const TEXTS_SIZE: usize = 64;
// author, description and timestamp, as edit 12 carries them
pub const SET_HEADER_SIZE: usize = 72;
// a contact's record
pub const CONTACT_SIZE: usize = 39;
// a channel's record
pub const CHANNEL_SIZE: usize = 90;
// a bank's offset
pub const OFFSET_SIZE: usize = 4;
// a bank's name and entry count
pub const BANK_HEAD_SIZE: usize = 34;
// an empty bank and its offset
pub const EMPTY_BANK_SIZE: usize = 38;
// a bank entry
pub const BANK_ENTRY_SIZE: usize = 2;
// the largest count
pub const COUNT_MAX: usize = 65_535;
// where the header has the counts of contacts, channels and banks
pub const CONTACT_COUNT_AT: usize = 82;

pub const CHANNEL_COUNT_AT: usize = 84;

pub const BANK_COUNT_AT: usize = 86;
// where a contact's record has its mode
pub const CONTACT_MODE_AT: usize = 32;
// where a bank has its entry count
pub const ENTRY_COUNT_AT: usize = 32;
// where a DMR channel's record has its contact index
pub const DMR_CONTACT_AT: usize = 87;
// where an M17 channel's record has its contact index
pub const M17_CONTACT_AT: usize = 88;
