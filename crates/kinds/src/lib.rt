// The three types of tag, each as a tag that reads and a message that may be written to it. A method is a call of the type's own
// function. Beside them a type of tag as a value, and what every type can do with any tag: read it, take a command, cut a list into
// commands, and tell whether a tag keeps its protected bytes.

#![tactic(auto)]

pub mod commands;
pub mod kept;
pub mod reading;
pub mod type2_update;
pub mod type3_update;
pub mod type6_update;

use tlv_tag::kept::Extent;

// A type of tag, with what the functions need to know of the tag handed in: for Type 2 the extent of the bytes to set, for Type 3
// Nbw and Nmaxb, for Type 6 the block size and the number of blocks. The IDm that the caller states is passed next to the kind; only
// Type 3 uses it.
#[derive(Clone, Copy, Debug, PartialEq, Eq)]
pub enum Kind {
    Type2(Extent),
    Type3(usize, usize),
    Type6(usize, usize),
}
