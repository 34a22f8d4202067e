// What a host writes to a page and what is measured on it, each one change; and which data are valid.
ghost use Rattle.std.specs.Prelude.{◌≡◌};
ghost use Rattle.laws.specs.Bits.{without};
ghost use Rattle.cause.specs.Kinds.{quantity_number};
ghost use Rattle.page.specs.Settings.{valid_operation, valid_response, formats_valid, page_valid, set_operation, set_vout_command, set_limit, set_response, set_measurement, clear_bits};

use super::Page;
use cause::{Cause, Quantity};
use retry::REST;
use value::format::Format;

// The values of OPERATION: off at once, off, on.
pub(crate) const OFF: u8 = 0x00;

const SOFT_OFF: u8 = 0x40;

pub(crate) const ON: u8 = 0x80;

#[tactic(auto, unfolding(crate::specs::Settings::valid_operation))]
pub fn valid_operation(x: u8) -> bool
    ensures { result ≡ valid_operation x }
{
    matches!(x, OFF | SOFT_OFF | ON)
}

// The number of the cause whose response has the meanings of a current fault, and its bytes: to go on, and to shut down and stay off.
const IOUT_OC: u8 = Cause::IoutOc as u8;

const GO_ON: u8 = 0x00;

pub const SHUT_DOWN: u8 = 0xC0;

// Whether a byte is valid data of a response. The cause comes as its number, of which docs/PROMISES.md (3.6) promises every one. Every byte is
// valid data of the responses other than IOUT_OC's.
pub fn valid_response(k: u8, x: u8) -> bool
    ensures { result ≡ valid_response k x }
{
    (k != IOUT_OC) | (x == GO_ON) | (x == SHUT_DOWN)
}

// Under each DIRECT mark the coefficients are valid.
pub fn formats_valid(formats: [Format; 3]) -> bool
    ensures { result ≡ formats_valid formats }
{
    formats.iter().all(|&f| value::format::format_valid(f))
}

// A page that no answer 15 goes to: OPERATION and every response are valid data, every machine is in a state that runs reach, and every
// DIRECT format has valid coefficients.
pub fn page_valid(p: Page) -> bool
    ensures { result ≡ page_valid p }
{
    valid_operation(p.operation)
        & valid_response(IOUT_OC, p.responses[usize::from(IOUT_OC)])
        & retry::machines::all_valid(p.machines)
        & formats_valid(p.formats)
}

// The setters below change a copy of the page and have no struct update: that copies field by field, which is 800 bytes more on a Cortex-M0, where
// firmware/test has a limit for the code.

// OPERATION: 00h and 40h also put the machines to rest and untrip the page.
#[tactic(auto, unfolding(crate::specs::Settings::set_operation))]
pub fn set_operation(p: Page, x: u8) -> Page
    ensures { result ≡ set_operation p x }
{
    let mut q = p;
    q.operation = x;
    if matches!(x, OFF | SOFT_OFF) {
        q.machines = [REST; 6];
        q.tripped = false;
    }
    q
}

// VOUT_COMMAND
#[tactic(auto, unfolding(crate::specs::Settings::set_vout_command))]
pub fn set_vout_command(p: Page, word: u16) -> Page
    ensures { result ≡ set_vout_command p word }
{
    let mut q = p;
    q.command = word;
    q
}

#[tactic(auto, unfolding(crate::specs::Settings::set_limit))]
pub fn set_limit(p: Page, k: u8, word: u16) -> Page
    ensures { result ≡ set_limit p k word }
{
    let mut q = p;
    q.limits[usize::from(k % 11)] = word;
    q
}

// A response; its machine is put to rest. The cause comes as its number, of which docs/PROMISES.md (7.11) promises every one.
#[tactic(auto, unfolding(crate::specs::Settings::set_response))]
pub fn set_response(p: Page, k: u8, x: u8) -> Page
    ensures { result ≡ set_response p k x }
{
    let i = usize::from(k % 6);
    let mut q = p;
    q.responses[i] = x;
    q.machines[i] = REST;
    q
}

// The latest word of a quantity.
#[tactic(auto, unfolding(crate::specs::Settings::set_measurement))]
pub fn set_measurement(p: Page, quantity: Quantity, word: u16) -> Page
    ensures { result ≡ set_measurement p (quantity_number quantity) word }
{
    let i = quantity as usize;
    let mut q = p;
    q.words[i] = word;
    q.measured[i] = true;
    q
}

// x without the bits of a mask.
#[tactic(auto, using(crate::proofs::Cleared::cleared), unfolding(laws::specs::Bits::without))]
fn without(x: u8, mask: u8) -> u8
    ensures { result ≡ without x mask }
{
    x & !mask
}

// Each of the four status registers loses the bits of its mask. The page stays tripped.
pub fn clear_bits(p: Page, masks: [u8; 4]) -> Page
    ensures { result ≡ clear_bits p masks }
{
    let status = std::array::from_fn(|j| without(p.status[j], masks[j]));
    let mut q = p;
    q.status = status;
    q
}
