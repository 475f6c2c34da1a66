// The history of edits of a byte buffer: entries that take the last edits back. Nothing here knows what a codeplug is.
#![tactic(auto)]

pub mod answer; // answer.rt: the answer of an edit or an undo
pub mod recording; // recording.rt: an entry put in front
pub mod scan; // scan.rt: the entries that bytes hold
