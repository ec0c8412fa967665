// The staged theorem, in specs/: this crate has no code.
#![tactic(auto)]
