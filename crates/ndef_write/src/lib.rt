// Writing a list of records as an NDEF message, in the shortest form.

#![tactic(auto)]

mod laying;
mod sizes;
pub mod write;
