// The library's answers as structures of C (bindings/c/include/codeplug.h). C has no Result, so a refusal's number stands beside blank values.
#![tactic(auto)]

pub mod channels; // channels.rt: a channel
pub mod contacts; // contacts.rt: a contact
pub mod files; // files.rt: what validation answers, the header, a bank, and an entry
mod texts; // texts.rt: texts into a lent buffer
