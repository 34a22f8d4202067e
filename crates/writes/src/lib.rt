// A write transaction, the bytes from START to STOP: which answer it gets, what it asks for as data, and what an accepted
// one leaves of the unpaged part and of a page that it acts on.
#![tactic(auto)]

pub mod answers; // answers.rt: the answer of a write
pub mod asked; // asked.rt: what a write asks for
pub mod bytes; // bytes.rt: the bytes of a transaction
pub mod left; // left.rt: what an accepted write leaves

pub use answers::write_answer;
pub use asked::{Setting, Write};
