// What the firmware asks of a state between two calls.
ghost use Rattle.std.specs.Prelude.{◌≡◌};
ghost use Rattle.device.specs.Supply.{supplies_at};

use super::Device;
use page::Page;

// Whether the supply of page i, of these, is to be switched on; one past their end is not.
#[tactic(auto, unfolding(crate::specs::Supply::supplies_at))]
pub fn supplies(pages: &[Page], i: u8) -> bool
    ensures { result ≡ supplies_at pages.now i }
{
    match pages.get(usize::from(i)) {
        Some(&p) => page::status::supplies(p),
        None => false,
    }
}

// The same of the eight pages of a device.
pub fn supplies_page(d: Device, i: u8) -> bool
    ensures { result ≡ supplies_at d.pages i }
{
    supplies(&d.pages, i)
}
