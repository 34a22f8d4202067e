// The format of a quantity of a page.
ghost use Rattle.std.specs.Prelude.{◌≡◌, ℕ};
ghost use Rattle.page.specs.Page.{Numbered, format_in, is_direct};

use cause::Quantity;
use value::format::{Format, LINEAR};

// VOUT has no format: its words are Linear16, and IOUT's stands in. Where there is no quantity the linear format does.
pub fn format_of(formats: [Format; 3], quantity: Option<Quantity>) -> Format
    ensures { (n : ℕ) → Numbered quantity n → result ≡ format_in formats n }
{
    match quantity {
        Some(Quantity::Vout | Quantity::Iout) => formats[0],
        Some(Quantity::Vin) => formats[1],
        Some(Quantity::Temperature) => formats[2],
        None => LINEAR,
    }
}

// Whether a quantity is in DIRECT form: VOUT is not, nor is none.
pub fn is_direct(formats: [Format; 3], quantity: Option<Quantity>) -> bool
    ensures { (n : ℕ) → Numbered quantity n → result ≡ is_direct formats n }
{
    quantity.is_some() && quantity != Some(Quantity::Vout) && format_of(formats, quantity).direct
}
