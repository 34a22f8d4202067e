// The host's totalizer: it adds up energy and samples from the device's energy replies, of which any may be lost, repeated or damaged.
// It knows nothing of the device but the layout of the reply.
#![tactic(auto)]

ghost use Rattle.std.specs.Prelude.{◌≡◌, ◌%◌, ◌^◌, ◌<◌, true};
ghost use Rattle.account.specs.Account.{account_valid};
ghost use Rattle.totalizer.specs.Totalizer.{fresh_totalizer, gap, added, booked, totalize, taken_of};

use account::{Account, COUNT_END};
use answer::Refusal;

// The data bytes of an account (data sheet 9.5).
const ACCOUNT_BYTES: u8 = 7;

// Where the energy reading of a valid account wraps: it has 23 bits (data sheet 9.6).
const READING_END: u32 = 1 << 23;

// A struct of the C interface: its marks stand beside the values, where Rust alone would have an enum.
#[repr(C)]
#[derive(Clone, Copy)]
pub struct Totalizer {
    // A reply has been accepted.
    pub started: bool,
    // A total would have reached 2^64.
    pub closed: bool,
    // The account in the last accepted reply.
    pub last: Account,
    // The totals since the first accepted reply.
    pub energy: u64,
    pub samples: u64,
}

// The totalizer after a reply, and the answer number: a Result as C takes it.
#[repr(C)]
#[derive(Clone, Copy)]
pub struct Taken {
    pub totalizer: Totalizer,
    pub answer: u8,
}

// A totalizer that has accepted nothing.
#[tactic(auto, unfolding(crate::specs::Totalizer::fresh_totalizer))]
pub fn fresh() -> Totalizer
    ensures { result ≡ fresh_totalizer }
{
    Totalizer {
        started: false,
        closed: false,
        last: Account {
            accumulator: 0,
            rollover: 0,
            count: 0,
        },
        energy: 0,
        samples: 0,
    }
}

// How far a number that wraps at END went forward.
fn gap<const END: u32>(last: u32, new: u32) -> u64
    requires below { last < END }

    // A word wraps at a multiple of END, so that it makes no difference where it does.
    requires divides { 2 ^ 32 % END ≡ 0 }
    ensures { result ≡ gap END last new }
{
    u64::from(new.wrapping_sub(last) % END)
}

// The totals with the differences since the last accepted reply added; refused where one would reach 2^64.
fn added(t: Totalizer, a: Account) -> Result<Totalizer, Refusal>
    requires { account_valid t.last ≡ true }
    ensures { taken_of t result ≡ added t a }
{
    let energy = gap::<READING_END>(account::energy_reading(t.last), account::energy_reading(a));
    let samples = gap::<COUNT_END>(t.last.count, a.count);
    Ok(Totalizer {
        started: true,
        last: a,
        energy: t.energy.checked_add(energy).ok_or(Refusal::TotalFull)?,
        samples: t.samples.checked_add(samples).ok_or(Refusal::TotalFull)?,
        ..t
    })
}

// An account from a reply that passed its tests: the start, or one more.
#[tactic(auto, unfolding(crate::specs::Totalizer::booked, crate::specs::Totalizer::fresh_totalizer))]
fn booked(t: Totalizer, a: Account) -> Result<Totalizer, Refusal>
    requires { account_valid t.last ≡ true }
    ensures { taken_of t result ≡ booked t a }
{
    if t.closed {
        return Err(Refusal::TotalFull);
    }
    if !t.started {
        return Ok(Totalizer {
            started: true,
            last: a,
            ..fresh()
        });
    }
    added(t, a)
}

// The totalizer after a reply that is accepted.
#[tactic(auto, using(crate::proofs::Outcomes::not_full), unfolding(crate::specs::Totalizer::totalize))]
fn accepted(t: Totalizer, code: u8, reply: &[u8]) -> Result<Totalizer, Refusal>
    ensures { taken_of t result ≡ totalize code t reply.now }
{
    if !account::account_valid(t.last) {
        return Err(Refusal::InvalidState);
    }
    replies::reply_answer(code, ACCOUNT_BYTES, true, true, reply)?;
    booked(t, account::account_from(reply))
}

// One reply to a read of the code, 86h of READ_EIN: an account's seven bytes and the PEC.
pub fn take(t: Totalizer, code: u8, reply: &[u8]) -> Taken
    ensures { result ≡ totalize code t reply.now }
{
    match accepted(t, code, reply) {
        Ok(totalizer) => Taken {
            totalizer,
            answer: answer::DONE,
        },
        // A total that is full closes the totalizer; any other refusal leaves it as it was.
        Err(refusal) => Taken {
            totalizer: Totalizer {
                closed: t.closed || refusal == Refusal::TotalFull,
                ..t
            },
            answer: refusal.into(),
        },
    }
}
