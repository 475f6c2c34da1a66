// Indexes and offsets that follow an edit.
#![tactic(auto)]

pub mod shift; // shift.rt: one index or offset
