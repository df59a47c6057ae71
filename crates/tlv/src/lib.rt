// The TLV area of a tag: the walk to the message TLV, and the skip table.
//
// The place reached is a small value, `walk::Walk`, that each step hands back moved on. The addresses that control TLVs take out
// are recorded in the caller's skip table, which has one entry for each address.
#![tactic(auto)]

pub mod area;
pub mod control;
pub mod find;
pub mod length;
pub mod table;
pub mod walk;
