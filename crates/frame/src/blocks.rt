// A frame file in blocks: each line is gathered in a buffer, and run at its LF.
ghost use Rattle.frame.specs.Blocks.{Ran};

use super::gather::{Gathered, gather, held};
use super::run_line;
use device::Device;

// The characters of the longest text: two digits for the answer and for each byte of a reply, and LF.
const LONGEST_TEXT: usize = 513;

// After a part of a block: the state, the number of characters of the line that has no LF yet, where the block goes on, and the number of
// characters of text.
#[derive(Clone, Copy)]
pub struct Progress {
    pub device: Device,
    pub length: usize,
    pub next: usize,
    pub written: usize,
}

// Runs the lines of a block from place `at` on, until the block is over or `out` has room for no further text. The line buffer holds the
// first n characters of a line that an earlier block began. Buffer and count, block and place, and no slices: docs/PROMISES.md names this
// function and `Ran`, which speaks of them so, and n may be one more than the buffer has.
pub fn run_block(
    d: Device,
    line: &mut [u8],
    n: usize,
    block: &[u8],
    at: usize,
    out: &mut [u8],
) -> Progress
    ensures { Ran d line.old n block.now at out.old result line.new out.new }
{
    let mut p = Progress {
        device: d,
        length: n,
        next: at,
        written: 0,
    };
    // A turn takes as many characters as a line has, so no `for` counts the places.
    while p.next < block.len() && out.len() - p.written >= LONGEST_TEXT {
        let Gathered { length, next } = gather(line, p.length, &block[p.next..]);
        let Some(next) = next else {
            return Progress {
                length,
                next: block.len(),
                ..p
            };
        };
        let done = run_line(p.device, held(line, length), &mut out[p.written..]);
        p = Progress {
            device: done.device,
            length: 0,
            next: p.next + next,
            written: p.written + done.length,
        };
    }
    p
}
