// The layout of a file: counts, and where its parts stand (document 01, "The file").
#![tactic(auto)]

pub mod places; // places.rt: counts and places

// Laid out as in C, for bindings/c/include/codeplug.h.
#[repr(C)]
#[derive(Clone, Copy)]
pub struct Counts {
    pub contacts: u16,
    pub channels: u16,
    pub banks: u16,
}
