// Measured values in both formats of a word, Linear11 and DIRECT, and their exact order, whatever the formats of the two.
#![tactic(auto)]

ghost use Rattle.std.specs.Prelude.{◌≡◌, true};
ghost use Rattle.value.specs.Format.{value_of, format_valid, comparison, answer_and_order};

use answer::Refusal;
use format::Format;
use ratio::Ratio;
use std::cmp::Ordering;

pub mod format; // format.rt: the format of a quantity, and the order of two of its words
mod ratio; // ratio.rt: values as fractions

// The value of a word in a valid format.
fn value_of(f: Format, w: u16) -> Ratio
    requires { format_valid f ≡ true }
    ensures { result ≡ value_of f w }
{
    if f.direct {
        return Ratio::direct(
            w.cast_signed(),
            f.m.cast_signed(),
            f.b.cast_signed(),
            f.r.cast_signed(),
        );
    }
    Ratio::linear(w)
}

// The value of word a in format f beside that of word b in format g.
#[tactic(auto, unfolding(crate::specs::Format::comparison))]
pub fn compare(f: Format, a: u16, g: Format, b: u16) -> Result<Ordering, Refusal>
    ensures { answer_and_order result ≡ comparison f a g b }
{
    if !format::format_valid(f) || !format::format_valid(g) {
        return Err(Refusal::InvalidFormat);
    }
    Ok(value_of(f, a).compare(value_of(g, b)))
}
