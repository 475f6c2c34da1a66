// Bytes moved within a buffer.
#![tactic(auto)]

pub mod block; // block.rt: a block moved up or down, zeros
pub mod splicing; // splicing.rt: other bytes in place of some of a content
