// The demands, as theorems about the definitions. This crate has no code; open specs/ first.

#![tactic(auto)]
