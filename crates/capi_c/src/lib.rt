// The functions of capi as C links them (bindings/c/include/codeplug.h), each with the clauses of the function that it calls,
// whose signature it repeats: an export has no type parameter.
#![tactic(auto)]

pub mod calls; // calls.rt: edit and undo
pub mod history; // history.rt: how many entries a history holds
pub mod legacy_files; // legacy_files.rt: validated by the legacy reading, and migrated
pub mod numbers; // numbers.rt: addresses and tones
pub mod read; // read.rt: validation and the readers
pub mod version; // version.rt: the interface's version
pub mod write; // write.rt: contacts, channels, a text field and the empty codeplug written
