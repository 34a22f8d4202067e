// The static library of `tongsorrel` for C and Rust: the functions of that library under their own names, each with its clauses.
// A slice crosses as a pointer and a length, a struct by value. include/tongsorrel.h declares them for C.
// They stand twice since an archive has the marked functions of one crate, and other crates call the library's.
#![tactic(auto)]

pub mod calls; // calls.rt: the device
pub mod streaming; // streaming.rt: the device event by event
pub mod totals; // totals.rt: the totalizer
pub mod values; // values.rt: packet check and values
