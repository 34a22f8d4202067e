// The static library of `host` for C and Rust: the functions of that library under their own names, each with its clauses.
// A slice crosses as a pointer and a length, a struct by value. include/tongsorrel.h declares them for C.
#![tactic(auto)]

pub mod exports; // exports.rt: writes, reads, replies and the totalizer
pub mod numbers; // numbers.rt: thousandths and words
