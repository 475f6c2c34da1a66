// The C interface's writers, over the beginning of a buffer: records from their numbers, a text field, the empty codeplug.
#![tactic(auto)]

pub mod channels; // channels.rt: a channel
pub mod contacts; // contacts.rt: a contact
pub mod texts; // texts.rt: a text field, and the empty codeplug
