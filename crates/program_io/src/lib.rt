// What the programs share: what they read from their input, and the words, numbers, digits and sums of their lines.
#![tactic(auto)]

pub mod input; // input.rt: bytes read into buffers
pub mod print; // print.rt: words, numbers and bytes written
