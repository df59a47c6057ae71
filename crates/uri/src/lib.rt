// The payload of a URI record: expanding it to the URI, and shortening a URI to it.

#![tactic(auto)]

pub mod expand;
mod laying;
mod prefixes;
pub mod shorten;
