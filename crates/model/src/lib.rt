// The definitions are in specs/: this crate has no code.
#![tactic(auto)]
