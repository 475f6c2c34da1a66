// Fields of a record in bytes: numbers, and the first bad field.
#![tactic(auto)]

pub mod numbers; // numbers.rt: numbers in bytes, low or high byte first
pub mod put; // put.rt: bytes and numbers written into a buffer
pub mod rule; // rule.rt: the first bad field answers
