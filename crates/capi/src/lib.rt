// The C interface: the library's calls over structures of C and byte slices (bindings/c/include/codeplug.h), each exported by capi_c. C has no Option and no
// Result: capi_numbers and capi_convert have the flat structures.
#![tactic(auto)]

pub mod calls; // calls.rt: edit and undo
pub mod history; // history.rt: how many entries a history holds
pub mod legacy_files; // legacy_files.rt: validated by the legacy reading, and migrated
pub mod numbers; // numbers.rt: addresses and tones
pub mod read; // read.rt: validation and the readers
pub mod version; // version.rt: the interface's version
pub mod write; // write.rt: contacts, channels, a text field and the empty codeplug written
