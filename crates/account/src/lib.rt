// The energy account behind READ_EIN: accumulator, rollover count and sample count, and the reply bytes that carry them.
// It knows nothing of the device that holds it.
#![tactic(auto)]

ghost use Rattle.std.specs.Prelude.{◌≡◌, ◌<◌, get_or, IfOk, OnErr};
ghost use Rattle.answer.specs.Answer.{answer_of};
ghost use Rattle.account.specs.Account.{account_valid, added, sampled, energy_reading, ein_bytes, account_of};

use answer::Refusal;

// Where the fields wrap: the accumulator has 15 bits, the rollover count 8, the sample count 24 (data sheet 9.1).
pub const ACCUMULATOR_END: u16 = 1 << 15;

const ROLLOVER_END: u16 = 1 << 8;

pub const COUNT_END: u32 = 1 << 24;

// The first of READ_EIN's data bytes is the count of those that follow (data sheet 9.5).
pub const COUNT_BYTE: u8 = 6;

// Wider than the reply's fields, so that a state handed in may be out of range.
#[repr(C)]
#[derive(Clone, Copy)]
pub struct Account {
    pub accumulator: u16,
    pub rollover: u16,
    pub count: u32,
}

// Whether each field is in the range that a run from power-on keeps it in.
#[tactic(auto, unfolding(crate::specs::Account::account_valid))]
pub fn account_valid(a: Account) -> bool
    ensures { result ≡ account_valid a }
{
    a.accumulator < ACCUMULATOR_END && a.rollover < ROLLOVER_END && a.count < COUNT_END
}

// The account with a sample of at most 32767 added.
#[tactic(auto, unfolding(crate::specs::Account::added))]
fn added(a: Account, sample: u16) -> Account
    requires { sample < 32768 }
    ensures { result ≡ added a sample }
{
    let sum = u32::from(a.accumulator) + u32::from(sample);
    let count = a.count.wrapping_add(1) % COUNT_END;
    if sum < u32::from(ACCUMULATOR_END) {
        return Account {
            accumulator: sum as u16,
            count,
            ..a
        };
    }
    Account {
        accumulator: (sum - u32::from(ACCUMULATOR_END)) as u16,
        rollover: a.rollover.wrapping_add(1) % ROLLOVER_END,
        count,
    }
}

// A power sample: taken up to 32767, refused over that.
#[tactic(auto, unfolding(crate::specs::Account::sampled))]
pub fn sample(a: Account, sample: u16) -> Result<Account, Refusal>
    ensures answer { answer_of result ≡ (sampled a sample).answer }
    ensures account { IfOk result (λ b. b ≡ (sampled a sample).account) }

    // A refusal leaves the account that was handed in.
    ensures unchanged { OnErr result ((sampled a sample).account ≡ a) }
{
    if sample >= ACCUMULATOR_END {
        return Err(Refusal::SampleTooLarge);
    }
    Ok(added(a, sample))
}

// The energy reading: rollover count and accumulator as one number, of 23 bits where the account is valid.
#[tactic(auto, unfolding(crate::specs::Account::energy_reading))]
pub fn energy_reading(a: Account) -> u32
    ensures { result ≡ energy_reading a }
{
    u32::from(a.rollover) * u32::from(ACCUMULATOR_END) + u32::from(a.accumulator)
}

// The seven data bytes of READ_EIN.
#[tactic(auto, unfolding(crate::specs::Account::ein_bytes))]
pub fn ein_bytes(a: Account) -> [u8; 7]
    ensures { result ≡ ein_bytes a }
{
    let [low, high] = a.accumulator.to_le_bytes();
    let [rollover, _] = a.rollover.to_le_bytes();
    let [count_low, count_middle, count_high, _] = a.count.to_le_bytes();
    [
        COUNT_BYTE,
        low,
        high,
        rollover,
        count_low,
        count_middle,
        count_high,
    ]
}

// The byte at a place, 0 past the end.
fn byte_at(s: &[u8], place: usize) -> u8
    ensures { result ≡ get_or s.now place 0 }
{
    s.get(place).copied().unwrap_or(0)
}

// The account that the bytes of such a reply carry; a byte that is not there is taken as 0, which no `From` should do unsaid.
#[tactic(auto, unfolding(crate::specs::Account::account_of))]
pub fn account_from(s: &[u8]) -> Account
    ensures { result ≡ account_of s.now }
{
    Account {
        accumulator: u16::from_le_bytes([byte_at(s, 1), byte_at(s, 2)]),
        rollover: u16::from(byte_at(s, 3)),
        count: u32::from_le_bytes([byte_at(s, 4), byte_at(s, 5), byte_at(s, 6), 0]),
    }
}
