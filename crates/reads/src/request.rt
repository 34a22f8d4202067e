// What a read asks for, as data: by its header alone.
ghost use Rattle.std.specs.Prelude.{◌≡◌};
ghost use Rattle.command.specs.Table.{lookup};
ghost use Rattle.reads.specs.Request.{plain_of, request_of, numbered};

use answer::Refusal;
use command::codes::COEFFICIENTS;
use writes::bytes::WRITE_ADDRESS;

// A new form of a header is a variant more, behind these.
#[derive(Clone, Copy, PartialEq, Eq)]
pub enum Request {
    // a code that is read, and the number of its data bytes
    Plain(u8, u8),
    // the coefficients of a code, in a direction
    Coefficients(u8, u8),
}

// The address byte behind the repeated START.
const READ_ADDRESS: u8 = 0xC1;

// The bytes that COEFFICIENTS is written: a code and a direction.
const CODE_AND_DIRECTION: u8 = 2;

#[tactic(auto, unfolding(crate::specs::Request::plain_of))]
fn plain_of(code: u8) -> Result<Request, Refusal>
    ensures { numbered result ≡ plain_of (lookup code) code }
{
    match command::lookup(code) {
        Some(entry) if entry.read => Ok(Request::Plain(code, entry.length)),
        _ => Err(Refusal::UnsupportedCommand),
    }
}

// The header is the write address, a code and the read address, or that of a process call.
#[tactic(auto, unfolding(crate::specs::Request::request_of, crate::specs::Request::addressed_of, crate::specs::Request::process_of, crate::specs::Request::coefficients_of))]
pub fn request_of(header: &[u8]) -> Result<Request, Refusal>
    ensures { numbered result ≡ request_of header.now }
{
    match header {
        [WRITE_ADDRESS, code, READ_ADDRESS] => plain_of(*code),
        [
            WRITE_ADDRESS,
            COEFFICIENTS,
            CODE_AND_DIRECTION,
            code,
            direction,
            READ_ADDRESS,
        ] => { Ok(Request::Coefficients(*code, *direction)) }
        [] | [WRITE_ADDRESS, ..] => Err(Refusal::Malformed),
        _ => Err(Refusal::WrongAddress),
    }
}
