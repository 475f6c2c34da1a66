// What refuses an edit of an accepted codeplug file.
#![tactic(auto)]

mod in_use; // in_use.rt: whether a contact or channel is in use (35)
mod places; // places.rt: the places and counts of an edit (33, 34)
pub mod refusal; // refusal.rt: what refuses an edit (32 to 36)
