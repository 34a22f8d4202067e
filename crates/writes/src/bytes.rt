// The bytes of a transaction.
ghost use Rattle.std.specs.Prelude.{◌≡◌, get_or};
ghost use Rattle.writes.specs.Asked.{word_of};

// The address byte that a transaction starts with.
pub const WRITE_ADDRESS: u8 = 0xC0;

// The byte at a place, 0 past the end.
pub fn byte_at(s: &[u8], i: usize) -> u8
    ensures { result ≡ get_or s.now i 0 }
{
    s.get(i).copied().unwrap_or(0)
}

// A word from its bytes, low byte first.
#[tactic(auto, unfolding(crate::specs::Asked::word_of))]
pub fn word_of(low: u8, high: u8) -> u16
    ensures { result ≡ word_of low high }
{
    u16::from_le_bytes([low, high])
}
