// What the page shows: whether it supplies, its derived status registers, its latest words, and which bits are new.
ghost use Rattle.std.specs.Prelude.{◌≡◌, ◌<◌, [], ◌∷◌};
ghost use Rattle.laws.specs.Bits.{bit};
ghost use Rattle.page.specs.Status.{supplies, status_byte, status_high, reading, any_status, risen};

use super::settings::ON;
use super::{Page, causes};

// The bits of STATUS_BYTE,
const OFF_BIT: u8 = 0x40;

const VOUT_OV: u8 = 0x20;

const IOUT_OC_BIT: u8 = 0x10;

const VIN_UV: u8 = 0x08;

const TEMPERATURE: u8 = 0x04;

const CML: u8 = 0x02;

const NONE_OF_THESE: u8 = 0x01;

// and of the high byte of STATUS_WORD.
const VOUT: u8 = 0x80;

const IOUT: u8 = 0x40;

const INPUT: u8 = 0x20;

const NO_POWER_GOOD: u8 = 0x08;

// OPERATION is on, the page is not tripped, no present cause keeps it off while it lasts, and no machine holds it off.
#[tactic(auto, unfolding(crate::specs::Status::supplies))]
pub fn supplies(p: Page) -> bool
    ensures { result ≡ supplies p }
{
    let present = causes::present_causes(p);
    let off = causes::off_while_lasts(present, p.responses);
    let held = retry::machines::any_holds(p.machines);
    (p.operation == ON) & !p.tripped & !off & !held
}

// Bit k of a register.
fn bit(register: u8, k: u32) -> bool
    requires { k < 8 }
    ensures { result ≡ bit register k }
{
    (register >> k) % 2 == 1
}

// STATUS_BYTE of a page that is on, which is to say supplies, or not. The CML register belongs to no page.
#[tactic(auto, unfolding(crate::specs::Status::status_byte))]
fn low_byte(p: Page, on: bool, cml: u8) -> u8
    requires { on ≡ supplies p }
    ensures { result ≡ status_byte p cml }
{
    let [vout, iout, input, temperature] = p.status;
    let other = (vout % 128 != 0) | (iout % 64 != 0) | (input / 32 != 0) | (input % 16 != 0);
    causes::weigh(!on, OFF_BIT)
        | causes::weigh(bit(vout, 7), VOUT_OV)
        | causes::weigh(bit(iout, 7) | bit(iout, 6), IOUT_OC_BIT)
        | causes::weigh(bit(input, 4), VIN_UV)
        | causes::weigh(temperature != 0, TEMPERATURE)
        | causes::weigh(cml != 0, CML)
        | causes::weigh(other, NONE_OF_THESE)
}

// The high byte of STATUS_WORD.
#[tactic(auto, unfolding(crate::specs::Status::status_high))]
fn high_byte(p: Page, on: bool) -> u8
    requires { on ≡ supplies p }
    ensures { result ≡ status_high p }
{
    let [vout, iout, input, _] = p.status;
    causes::weigh(vout != 0, VOUT)
        | causes::weigh(iout != 0, IOUT)
        | causes::weigh(input != 0, INPUT)
        | causes::weigh(!on, NO_POWER_GOOD)
}

pub fn status_byte(p: Page, cml: u8) -> u8
    ensures { result ≡ status_byte p cml }
{
    let on = supplies(p);
    low_byte(p, on, cml)
}

// STATUS_WORD, low byte first. Whether the page supplies is found out once for both bytes.
pub fn status_word(p: Page, cml: u8) -> [u8; 2]
    ensures { result ≡ status_byte p cml ∷ status_high p ∷ [] }
{
    let on = supplies(p);
    let low = low_byte(p, on, cml);
    let high = high_byte(p, on);
    [low, high]
}

// The latest word of a quantity, 0000h before any. The quantity comes as its number, of which docs/PROMISES.md (5.7, 12.7) promises every one.
#[tactic(auto, unfolding(crate::specs::Status::reading))]
pub fn reading(p: Page, quantity: u8) -> u16
    ensures { result ≡ reading p quantity }
{
    let i = usize::from(quantity % 4);
    if p.measured[i] {
        return p.words[i];
    }
    0
}

// Some bit of the four registers is 1.
#[tactic(auto, unfolding(crate::specs::Status::any_status))]
pub fn any_status(p: Page) -> bool
    ensures { result ≡ any_status p }
{
    let [vout, iout, input, temperature] = p.status;
    (vout | iout | input | temperature) != 0
}

// Some bit of the four registers is 1 in q and was 0 in p.
pub fn risen(p: Page, q: Page) -> bool
    ensures { result ≡ risen p q }
{
    (0..4).any(|j| (p.status[j] | q.status[j]) != p.status[j])
}
