// What the static library for C and Rust exports: functions named tongsorrel_.., each with the contract of the proved function behind it.
// A slice crosses as a pointer and a length, a struct by value. include/tongsorrel.h declares them for C; tongsorrel_c is the archive.
#![tactic(auto)]

pub mod values; // values.rt: packet check and Linear11 values
pub mod calls; // calls.rt: the device
pub mod streaming; // streaming.rt: the device event by event
pub mod totals; // totals.rt: the totalizer
