// Whether a page has coefficients for a code: its value is in DIRECT form there, and the code goes in the direction asked for.
ghost use Rattle.std.specs.Prelude.{◌≡◌};
ghost use Rattle.command.specs.Table.{lookup};
ghost use Rattle.reads.specs.Coefficients.{has_direction, has_coefficients};

use page::Page;

// 01h for a value that is read, 00h for one that is written.
const TO_DECODE: u8 = 0x01;

const TO_ENCODE: u8 = 0x00;

#[tactic(auto, unfolding(crate::specs::Coefficients::has_direction))]
fn has_direction(code: u8, direction: u8) -> bool
    ensures { result ≡ has_direction (lookup code) direction }
{
    let Some(entry) = command::lookup(code) else {
        return false;
    };
    match direction {
        TO_DECODE => entry.read,
        TO_ENCODE => entry.written,
        _ => false,
    }
}

#[tactic(auto, unfolding(crate::specs::Coefficients::has_coefficients))]
pub fn has_coefficients(p: Page, code: u8, direction: u8) -> bool
    ensures { result ≡ has_coefficients p code direction }
{
    let quantity = command::quantity::quantity_of(code);
    page::formats::is_direct(p.formats, quantity) && has_direction(code, direction)
}
