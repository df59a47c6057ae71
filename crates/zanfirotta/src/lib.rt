// The C interface, as include/zanfirotta.h declares it. No function allocates, and each is total.

#![tactic(auto)]

mod answers;
pub mod ndef_calls;
pub mod type2_calls;
pub mod type3_calls;
pub mod type6_calls;
pub mod uri_calls;
