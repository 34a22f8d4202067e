// ACK and NACK. The bytes s are those kept of a transaction, b is the byte behind them.
ghost use Rattle.std.specs.Prelude.{◌≡◌, ◌&&◌, ◌+◌, ltb, length};
ghost use Rattle.command.specs.Table.{lookup};
ghost use Rattle.bus.specs.Ack.{known, orderly, acked_first, acked_second, ack_in};

use super::{TURNING, WRITING};

const WRITE_ADDRESS: u8 = 0xC0;

const READ_ADDRESS: u8 = 0xC1;

// The table has the code.
#[tactic(auto, unfolding(crate::specs::Ack::known))]
fn known(code: u8) -> bool
    ensures { result ≡ known code }
{
    command::lookup(code).is_some()
}

// Data or packet check of this code still have a place behind n bytes, the address byte and the code among them.
fn room_behind(code: u8, n: usize) -> bool
    ensures { result ≡ ((lookup code).known && ltb n ((lookup code).length + 3)) }
{
    match command::lookup(code) {
        Some(e) => n < usize::from(e.length) + 3,
        None => false,
    }
}

// Before a repeated START.
#[tactic(auto, unfolding(crate::specs::Ack::acked_first, crate::specs::Ack::room_behind, crate::specs::Ack::known))]
fn acked_first(s: &[u8], b: u8) -> bool
    ensures { result ≡ acked_first s.now b }
{
    match s {
        [] => b == WRITE_ADDRESS,
        [WRITE_ADDRESS] => known(b),
        [WRITE_ADDRESS, code, ..] => room_behind(*code, s.len()),
        _ => false,
    }
}

// Address and code, where there are any, are right.
#[tactic(auto, unfolding(crate::specs::Ack::orderly))]
fn orderly(s: &[u8]) -> bool
    ensures { result ≡ orderly s.now }
{
    match s {
        [] | [WRITE_ADDRESS] => true,
        [WRITE_ADDRESS, code, ..] => known(*code),
        _ => false,
    }
}

// The second address byte.
#[tactic(auto, unfolding(crate::specs::Ack::acked_second))]
fn acked_second(s: &[u8], b: u8) -> bool
    ensures { result ≡ acked_second s.now b }
{
    orderly(s) && b == READ_ADDRESS
}

// ACK for the byte b behind the bytes s, or NACK.
#[tactic(auto, unfolding(crate::specs::Ack::ack_in))]
pub fn ack_in(phase: u8, s: &[u8], b: u8) -> bool
    ensures { result ≡ ack_in phase s.now b }
{
    match phase {
        WRITING => acked_first(s, b),
        TURNING => acked_second(s, b),
        _ => false,
    }
}
