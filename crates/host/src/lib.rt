// The host's side of the bus: it builds the transactions of the command table, reads their replies and totalizes energy. It knows the
// table, and nothing of the device (data sheet 18.1).
#![tactic(auto)]

pub mod build; // writes and reads into the caller's buffer
pub mod exports; // for C and Rust
pub mod numbers; // thousandths and words, for C and Rust
pub mod parse; // replies into their fields
