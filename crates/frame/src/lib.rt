// The frame file (data sheet 13.1): a line of characters in, a call of the device, a line of text out.
#![tactic(auto)]

ghost use Rattle.frame.specs.Line.{line_outcome, Told};

use device::Device;

pub mod blocks; // blocks.rt: a file in blocks
mod calls; // calls.rt: the call that the bytes of a line name
mod gather; // gather.rt: a line from blocks
mod hex; // hex.rt: digits as bytes
mod text; // text.rt: an answer as text

// The state after a line, and the number of characters of its text.
#[derive(Clone, Copy)]
pub struct LineDone {
    pub device: Device,
    pub length: usize,
}

// Runs one line, the characters before its LF: the state handed back, and the text at the front of `out`, as far as `out` goes.
#[tactic(auto, unfolding(crate::specs::Line::line_outcome))]
pub fn run_line(d: Device, line: &[u8], out: &mut [u8]) -> LineDone
    ensures { Told (line_outcome d line.now) out.old result out.new }
{
    let mut buffer = [0; hex::LINE_BYTES];
    let bytes = hex::decode(line, &mut buffer);
    calls::run_frame(d, bytes, out)
}
