// The usable bytes of a TLV area from a walk's place on: counting, measuring, gathering and setting them.
#![tactic(auto)]

pub mod value;
