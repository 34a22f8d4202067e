// The state of the streaming device as bytes (specs/Layout.antt has the layout): its parts read from their places and stored there, and the
// test for 15 on the bytes. Behind that test a buffer has the right length.
#![tactic(auto)]

pub mod choices; // choices.rt: what is chosen at power-on
mod formats; // formats.rt: the formats of a page
pub mod page_record; // page_record.rt: a page
pub mod pages; // pages.rt: one of the eight pages
pub mod part; // part.rt: what is kept of a transaction
pub mod state; // state.rt: the test for 15
pub mod stored; // stored.rt: what a value is in a buffer; bytes, words, marks, arrays
pub mod unpaged_part; // unpaged_part.rt: the unpaged part

// Where things stand in a buffer (data sheet 17.12): its length, the reply, the unpaged part, the first page, and the length of a page.
pub const SIZE: usize = 610;

pub const REPLY: usize = 14;

pub const UNPAGED: usize = 22;

pub const PAGES: usize = 34;

pub const PAGE: usize = 72;

// What is chosen at power-on: the length of eight choices, and of one.
pub const CHOICES: usize = 240;

pub const CHOICE: usize = 30;
