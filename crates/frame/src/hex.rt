// Lower-case hexadecimal: the bytes of a line of digits, and the digit of a value.
ghost use Rattle.std.specs.Prelude.{◌≡◌, true, false, ◌<◌, ◌≤◌, ◌&&◌, length, MatchOption};
ghost use Rattle.frame.specs.Hex.{is_digit, digit_of, byte_of, glyph};
ghost use Rattle.frame.specs.Text.{bytes_of};

// The bytes of the longest line.
pub const LINE_BYTES: usize = 256;

// The value of a digit, `0` to `9` or `a` to `f`.
fn digit_of(c: u8) -> Option<u8>
    ensures { MatchOption result (is_digit c ≡ false) (λ x. (is_digit c ≡ true) × (x ≡ digit_of c) × (x < 16)) }
{
    match c {
        b'0'..=b'9' => Some(c - b'0'),
        b'a'..=b'f' => Some(c - b'a' + 10),
        _ => None,
    }
}

// The byte of two digits, the high one first.
fn byte_of(high: u8, low: u8) -> Option<u8>
    ensures { MatchOption result ((is_digit high && is_digit low) ≡ false) (λ x. ((is_digit high && is_digit low) ≡ true) × (x ≡ byte_of high low)) }
{
    Some(digit_of(high)? * 16 + digit_of(low)?)
}

// The digit of a value below 16.
pub fn glyph(x: u8) -> u8
    requires { x < 16 }
    ensures { result ≡ glyph x }
{
    if x < 10 { b'0' + x } else { b'a' + (x - 10) }
}

// Puts the bytes of a line at the front of a buffer, and gives them; a line that is no good text has none.
pub fn decode<'a>(line: &[u8], bytes: &'a mut [u8; LINE_BYTES]) -> &'a [u8]
    ensures { result.now ≡ bytes_of line.now }
{
    let (pairs, odd) = line.as_chunks::<2>();
    if !odd.is_empty() || bytes.len() < pairs.len() {
        return &[];
    }
    for (i, &[high, low]) in pairs.iter().enumerate() {
        let Some(b) = byte_of(high, low) else {
            return &[];
        };
        bytes[i] = b;
    }
    &bytes[..pairs.len()]
}
