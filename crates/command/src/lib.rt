// The command codes: their table of access and data length, what each of them means, which act on a page, and which carry values.
#![tactic(auto)]

pub mod codes;
pub mod meaning;
pub mod paged;
pub mod quantity;
pub mod table;

pub use meaning::{Command, command_of};
pub use table::{Entry, lookup};
