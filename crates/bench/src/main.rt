// The bench program: a frame file (data sheet 13.1) on standard input, the answers on standard output. What a line does, and that
// the blocks of a file give the text of its lines, is proved in `frame`; here are the reads and the writes.
#![tactic(auto)]

ghost use Rattle.std.specs.Prelude.{ℕ, ◌≤◌, ◌<◌, ◌≡◌, List, length, IfSome};
ghost use Rattle.frame.specs.Blocks.{feed};
ghost use Rattle.bench.specs.Held.{Leaves, Reached, to_run};

use device::Device;
use frame::blocks;
use std::io::{Read, Stdin};

// The streams that io writes to, by number: docs/DECISIONS.md says what becomes of a failed write, which is what `io::write_all` does.
const STDOUT: i32 = 1;

const STDERR: i32 = 2;

// Between two blocks: the state, and the number of characters of the line that has no LF yet.
#[derive(Clone, Copy)]
struct Between {
    device: Device,
    length: usize,
}

// Says on standard error that a write failed. There is nothing to do where that fails too.
fn say_write_failed() {
    io::write_all(STDERR, b"bench: write failed\n");
}

// Runs a whole block and writes its text. None where a write fails.
fn feed(b: Between, line: &mut [u8], block: &[u8], out: &mut [u8]) -> Option<Between>
    requires { 513 ≤ length out.old }
    ensures { IfSome result (λ left. Leaves (feed b.device line.old b.length block.now) left.device line.new left.length) }
{
    let mut left = b;
    let mut at = 0;
    // A turn runs as many characters as fit the output, so no `for` counts the places.
    while at < block.len() {
        let p = blocks::run_block(left.device, line, left.length, block, at, out);
        if !io::write_all(STDOUT, &out[..p.written]) {
            say_write_failed();
            return None;
        }
        left = Between {
            device: p.device,
            length: p.length,
        };
        at = p.next;
    }
    Some(left)
}

// The characters to run after a read, where the line before it has n. At the end of the input a last line that has characters gets its LF.
fn closed(read: &[u8], n: usize) -> &[u8]
    ensures { result.now ≡ to_run (length read.now) n read.now }
{
    match read {
        [] if n == 0 => &[],
        [] => b"\n",
        _ => read,
    }
}

// Reads what there is, at most a block: none at the end of the input, and where the read fails.
fn read_block(stdin: Stdin, block: &mut [u8]) -> &[u8]
    ensures { length result.now ≤ length block.old }
{
    let mut input = stdin;
    let n = input.read(block).unwrap_or(0);
    &block[..n]
}

// Reads a block and runs it. None at the end: a read that fails counts as the end of the input. What was read is not known; that it is run
// on what the blocks before left is.
fn turn(
    stdin: Stdin,
    b: Between,
    line: &mut [u8],
    block: &mut [u8],
    out: &mut [u8],
) -> Option<Between>
    requires { (513 ≤ length out.old) × Reached b.device line.old b.length }
    ensures { IfSome result (λ left. (read : ℕ) × (bytes : List ℕ) × Leaves (feed b.device line.old b.length (to_run read b.length bytes)) left.device line.new left.length) }
{
    match closed(read_block(stdin, block), b.length) {
        [] => None,
        text => feed(b, line, text, out),
    }
}

// Nothing says that the input ends, so the loop has a number of turns that no run uses up.
fn run(stdin: Stdin, line: &mut [u8], block: &mut [u8], out: &mut [u8])
    requires { 513 ≤ length out.old }
{
    let mut b = Between {
        device: device::power_on(),
        length: 0,
    };
    for _ in 0..u64::MAX {
        let Some(left) = turn(stdin, b, line, block, out) else {
            return;
        };
        b = left;
    }
}

fn main(rt: HostRuntime) {
    let mut line = [0; 512];
    let mut block = io::large_buffer();
    let mut out = io::large_buffer();
    run(rt.stdin(), &mut line, &mut block, &mut out);
}
