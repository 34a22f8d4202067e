// A line of a frame file is gathered into a buffer, from one block of the file or from several.
ghost use Rattle.std.specs.Prelude.{◌≡◌, length, set};
ghost use Rattle.std.proofs.lemmas.List.Edits.{sets};
ghost use Rattle.frame.specs.Gather.{up_to, count_of, gathered_of, held_in};

// The number of characters of the line so far, and the place behind its LF, if it came. A line longer than its buffer counts one more than
// the buffer.
#[derive(Clone, Copy)]
pub struct Gathered {
    pub length: usize,
    pub next: Option<usize>,
}

// One more character of a line, at its place in the buffer; none past the end.
fn keep(line: &mut [u8], n: usize, c: u8) -> usize
    ensures value { result ≡ count_of (length line.old) n 1 }
    ensures line_after { line.new ≡ set line.old n c }
{
    if n < line.len() {
        line[n] = c;
    }
    if n <= line.len() { n + 1 } else { n }
}

// Gathers the characters up to the LF or the end of the block, behind the n that the line has.
pub fn gather(line: &mut [u8], n: usize, block: &[u8]) -> Gathered
    ensures value { result ≡ gathered_of (length line.old) n block.now }
    ensures line_after { line.new ≡ sets line.old n (up_to block.now) }
{
    let mut length = n;
    for (i, &c) in block.iter().enumerate() {
        if c == b'\n' {
            return Gathered {
                length,
                next: Some(i + 1),
            };
        }
        length = keep(line, length, c);
    }
    Gathered { length, next: None }
}

// The characters of a line to run: those of the buffer, or none where the line is longer than the buffer.
pub fn held(line: &[u8], n: usize) -> &[u8]
    ensures { result.now ≡ held_in line.now n }
{
    line.get(..n).unwrap_or(&[])
}
