// The unpaged part of the device: PAGE, WRITE_PROTECT, STATUS_CML, the alert and the energy account. Which values are valid,
// what a refusal leaves, and the answers of the calls that are no transactions.
#![tactic(auto)]

ghost use Rattle.std.specs.Prelude.{◌≡◌};
ghost use Rattle.answer.specs.Answer.{number_of};
ghost use Rattle.unpaged.specs.Unpaged.{valid_page, valid_protect, unpaged_valid, power_on_unpaged, cml_bits, refused, with_energy, shown};

use account::Account;
use answer::Refusal;

pub mod events; // events.rt: the answers of measurements and alert responses

// PAGE holding this selects every page (data sheet 3.8).
pub const EVERY_PAGE: u8 = 0xFF;

// The levels of WRITE_PROTECT (data sheet 4.1), each with what the one before protects: nothing; limits and responses; VOUT_COMMAND too; PAGE
// and OPERATION too.
pub const PROTECT_NOTHING: u8 = 0x00;

pub const PROTECT_LIMITS: u8 = 0x20;

pub const PROTECT_VOLTAGE: u8 = 0x40;

pub const PROTECT_ALL: u8 = 0x80;

// A level of protection by its byte, as the page: the C interface, and any byte may come in.
#[repr(C)]
#[derive(Clone, Copy)]
pub struct Unpaged {
    pub page: u8,
    pub protect: u8,
    pub cml: u8,
    pub alert: bool,
    pub energy: Account,
}

#[tactic(auto, unfolding(crate::specs::Unpaged::power_on_unpaged))]
pub fn power_on_unpaged() -> Unpaged
    ensures { result ≡ power_on_unpaged }
{
    Unpaged {
        page: 0,
        protect: 0,
        cml: 0,
        alert: false,
        energy: Account {
            accumulator: 0,
            rollover: 0,
            count: 0,
        },
    }
}

// PAGE of a device with n pages: a page, or FFh for every one.
#[tactic(auto, unfolding(crate::specs::Unpaged::valid_page))]
pub fn valid_page(n: u8, x: u8) -> bool
    ensures { result ≡ valid_page n x }
{
    x < n || x == EVERY_PAGE
}

// The page that a read looks at: the selected one, or page 0 where every one is.
#[tactic(auto, unfolding(crate::specs::Unpaged::shown))]
pub fn shown(u: Unpaged) -> u8
    ensures { result ≡ shown u }
{
    if u.page == EVERY_PAGE { 0 } else { u.page }
}

#[tactic(auto, unfolding(crate::specs::Unpaged::valid_protect))]
pub fn valid_protect(x: u8) -> bool
    ensures { result ≡ valid_protect x }
{
    matches!(
        x,
        PROTECT_NOTHING | PROTECT_LIMITS | PROTECT_VOLTAGE | PROTECT_ALL
    )
}

// The unpaged part of a device with n pages is one that no answer 15 goes to.
#[tactic(auto, unfolding(crate::specs::Unpaged::unpaged_valid))]
pub fn unpaged_valid(n: u8, u: Unpaged) -> bool
    ensures { result ≡ unpaged_valid n u }
{
    valid_page(n, u.page) && valid_protect(u.protect) && account::account_valid(u.energy)
}

// The bit of STATUS_CML that a refusal sets, by its weight, or 0.
#[tactic(auto, unfolding(crate::specs::Unpaged::cml_bits))]
fn bit_of(refusal: Refusal) -> u8
    ensures { result ≡ cml_bits (number_of refusal) }
{
    match refusal {
        Refusal::UnsupportedCommand | Refusal::Protected => 0x80,
        Refusal::TooManyData | Refusal::InvalidData => 0x40,
        Refusal::WrongPec => 0x20,
        Refusal::TooFewData | Refusal::ReadTooShort | Refusal::ReadTooLong => 0x02,
        _ => 0,
    }
}

// The same of an answer number, whatever it is.
pub fn cml_bits(answer: u8) -> u8
    ensures { result ≡ cml_bits answer }
{
    match Refusal::try_from(answer) {
        Ok(refusal) => bit_of(refusal),
        Err(_) => 0,
    }
}

// What a refusal leaves of the unpaged part: its bit of STATUS_CML, and the alert if that bit was 0.
pub fn after(u: Unpaged, refusal: Refusal) -> Unpaged
    ensures { result ≡ refused u (number_of refusal) }
{
    let cml = u.cml | bit_of(refusal);
    Unpaged {
        cml,
        alert: u.alert || cml != u.cml,
        ..u
    }
}

// The same of an answer number, whatever it is (docs/PROMISES.md, 6.9): one that is no refusal's leaves everything.
pub fn refused(u: Unpaged, answer: u8) -> Unpaged
    ensures { result ≡ refused u answer }
{
    match Refusal::try_from(answer) {
        Ok(refusal) => after(u, refusal),
        Err(_) => u,
    }
}

// The unpaged part with another account.
pub fn with_energy(u: Unpaged, a: Account) -> Unpaged
    ensures { result ≡ with_energy u a }
{
    Unpaged { energy: a, ..u }
}
