// A read transaction: which answer it gets, its data, and what stands in the reply buffer.
#![tactic(auto)]

pub mod answers; // answers.rt: the answer of a read
mod coefficients; // coefficients.rt: whether a page has coefficients for a code
pub mod data; // data.rt: the data of each command, with the packet check
pub mod request; // request.rt: what a read asks for
pub mod reply; // reply.rt: the bytes to send, and what stands in the reply buffer
