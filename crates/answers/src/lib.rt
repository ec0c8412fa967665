// The original compared with the definitions, in specs/: this crate has no code.
#![tactic(auto)]
