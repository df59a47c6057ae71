// Tags that have a TLV area, whatever their type: reading the message, where a message goes, what writing sets, and what a list is
// made from.

#![tactic(auto)]

mod capacity;
mod extent;
pub mod kept;
pub mod prepare;
pub mod read;
pub mod space;
#[cfg(test)]
mod tests;
mod update;
