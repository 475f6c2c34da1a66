// The refusals of document 01, and its lengths, places and the header's fixed fields by name.
#![tactic(auto)]

pub mod header; // header.rt: the magic number and the version
pub mod refusals; // refusals.rt: why something is refused, and where
pub mod sizes; // sizes.rt: lengths, counts and places of the format
