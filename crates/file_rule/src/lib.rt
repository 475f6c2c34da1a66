// The rule of the whole file: definitions and theory, without code.
#![tactic(auto)]
