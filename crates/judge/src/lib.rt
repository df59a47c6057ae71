// The judge of command lists, whoever made them. Every type of tag shares the step for one command, the loop over the commands and
// the test at the end of the list. A type adds refusals 1 to 11, Type 6 also 14, and what the tests need to know of the tag.

#![tactic(auto)]

mod lists;
pub mod type2_lists;
pub mod type3_lists;
pub mod type6_lists;
