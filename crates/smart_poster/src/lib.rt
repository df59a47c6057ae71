// The first URI of a message. A message holds URI records and Smart Poster records, and a poster's payload is a message again.

#![tactic(auto)]

pub mod first;
mod messages;
mod records;
