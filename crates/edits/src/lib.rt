// The twelve edits of a codeplug file: definitions and their theory; no code.
#![tactic(auto)]
