// The packet check (PEC) of SMBus 2.0: CRC-8, polynomial x^8+x^2+x+1, high bit first, start 0.
#![tactic(auto)]

mod table; // table.rt: what eight bits make of a byte, looked up

ghost use Rattle.std.specs.Prelude.{◌≡◌};
ghost use Rattle.pec.specs.Pec.{pec_bit, pec_byte, pec_from, pec};

// One bit: shift left, and take the polynomial off where a bit was shifted out.
pub fn pec_bit(x: u8) -> u8
    ensures { result ≡ pec_bit x }
{
    if x & 0x80 != 0 { (x << 1) ^ 7 } else { x << 1 }
}

// One byte, bit by bit: for single bytes, and for whoever has no room for the table. The loop over an `if` is the form that LLVM knows
// as a CRC.
pub fn pec_byte(crc: u8, b: u8) -> u8
    ensures { result ≡ pec_byte crc b }
{
    let mut x = crc ^ b;
    for _ in 0..u8::BITS {
        x = pec_bit(x);
    }
    x
}

// The check of s, carried on from crc: a look-up in the table for each byte.
pub fn pec_from(crc: u8, s: &[u8]) -> u8
    ensures { result ≡ pec_from crc s.now }
{
    let mut r = crc;
    for &b in s {
        r = table::byte(r, b);
    }
    r
}

// The check of a whole transaction, address bytes included.
#[tactic(auto, unfolding(crate::specs::Pec::pec))]
pub fn pec(s: &[u8]) -> u8
    ensures { result ≡ pec s.now }
{
    pec_from(0, s)
}
