// The text of an answer: the answer number and the reply in lower-case hexadecimal, and LF.
ghost use Rattle.std.specs.Prelude.{◌≡◌, ◌+◌, ◌<◌, ◌≤◌, ◌^◌, [], ◌∷◌, length, set};
ghost use Rattle.std.proofs.lemmas.List.Edits.{sets};
ghost use Rattle.frame.specs.Hex.{hex_of};
ghost use Rattle.frame.specs.Text.{answer_text};

use super::hex;

// A character at a place; none past the end of the buffer.
fn put(out: &mut [u8], at: usize, c: u8)
    ensures { out.new ≡ set out.old at c }
{
    if at < out.len() {
        out[at] = c;
    }
}

// The two digits of a byte, from a place on.
#[tactic(auto, unfolding(crate::specs::Hex::hex_of))]
fn put_byte(out: &mut [u8], at: usize, b: u8)
    requires { at + 1 < 2 ^ 64 }
    ensures { out.new ≡ sets out.old at (hex_of (b ∷ [])) }
{
    put(out, at, hex::glyph(b / 16));
    put(out, at + 1, hex::glyph(b % 16));
}

// Puts the text of an answer and a reply at the front of a buffer, as far as the buffer goes, and gives the length of the text.
pub fn put_answer(out: &mut [u8], answer: u8, reply: &[u8]) -> usize
    requires { length reply.now < 256 }
    ensures value { result ≡ length (answer_text answer reply.now) }
    ensures out_after { out.new ≡ sets out.old 0 (answer_text answer reply.now) }
    ensures upper_bound { result ≤ 513 }
{
    put_byte(out, 0, answer);
    for (i, &b) in reply.iter().enumerate() {
        put_byte(out, 2 * i + 2, b);
    }
    let end = 2 * reply.len() + 2;
    put(out, end, b'\n');
    end + 1
}
