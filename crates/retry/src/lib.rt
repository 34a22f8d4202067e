// The retry machine of one cause, in the byte that a page keeps of it: tries left in bits 5 to 3, ticks left in bits 2 to 0.
// 0 is at rest, below 8 waiting, 64 tripped; between them it holds its page off, or tries where no ticks are left.
#![tactic(auto)]

ghost use Rattle.std.specs.Prelude.{◌≡◌, ◌<◌};
ghost use Rattle.retry.specs.Response.{action, action_number, retries, delay};
ghost use Rattle.retry.specs.Machine.{hold, look, started, less_one};
ghost use Rattle.retry.specs.Byte.{byte_of, byte_at_call, byte_at_tick, byte_holds, byte_trips, trips_now, byte_valid};

pub mod machines; // machines.rt: those of a page, side by side

// A machine is a byte and no enum: a page keeps it, and pages are the C interface (`page::Page`, machines).
pub const REST: u8 = 0;

const TRIPPED: u8 = 64;

// What a response byte says of its cause, in bits 7 and 6: the page goes on, or goes on for the delay, or is held off at once, or is off
// for as long as the cause is present. The last works without a machine.
#[derive(Clone, Copy, PartialEq, Eq)]
pub enum Action {
    GoOn,
    WaitFirst,
    HoldAtOnce,
    OffWhilePresent,
}

impl From<u8> for Action {
    ghost from_gives = { λ response result. action_number result ≡ action response };

    fn from(response: u8) -> Action {
        match response / 64 {
            0 => Action::GoOn,
            1 => Action::WaitFirst,
            2 => Action::HoldAtOnce,
            _ => Action::OffWhilePresent,
        }
    }
}

// The retries; 7 are for ever.
fn retries(response: u8) -> u8
    ensures { result ≡ retries response }
{
    response / 8 % 8
}

// The delay in ticks; 0 counts as 1.
#[tactic(auto, unfolding(crate::specs::Response::delay))]
fn delay(response: u8) -> u8
    ensures { result ≡ delay response }
{
    if response % 8 == 0 {
        return 1;
    }
    response % 8
}

// The page is held off; without tries it trips.
fn hold(response: u8, tries: u8) -> u8
    requires { tries < 8 }
    ensures { result ≡ byte_of (hold response tries) }
{
    if tries == 0 {
        return TRIPPED;
    }
    let ticks = delay(response);
    tries * 8 + ticks
}

// A look at the cause.
#[tactic(auto, unfolding(crate::specs::Machine::look, crate::specs::Byte::byte_of))]
fn look(response: u8, present: bool, tries: u8) -> u8
    requires { tries < 8 }
    ensures { result ≡ byte_of (look response present tries) }
{
    if present { // else it has gone
        return hold(response, tries);
    }
    REST
}

// A present cause starts a machine at rest.
#[tactic(auto, unfolding(crate::specs::Machine::started, crate::specs::Byte::byte_of))]
fn start(response: u8) -> u8
    ensures { result ≡ byte_of (started response) }
{
    match Action::from(response) {
        Action::HoldAtOnce => hold(response, retries(response)),
        Action::WaitFirst => delay(response),
        Action::GoOn | Action::OffWhilePresent => REST,
    }
}

// The tries left when one was in vain; 7 are for ever.
#[tactic(auto, unfolding(crate::specs::Machine::less_one))]
fn less_one(tries: u8) -> u8
    requires { 0 < tries }
    ensures { result ≡ less_one tries }
{
    if tries == 7 {
        return 7;
    }
    tries - 1
}

// The end of a call with answer 0 that is no tick.
pub fn at_call(m: u8, response: u8, present: bool) -> u8
    ensures { result ≡ byte_at_call response present m }
{
    if m == REST {
        if present {
            return start(response);
        }
        return REST;
    }
    if TRIPPED <= m {
        return TRIPPED;
    }
    m
}

// A tick. Ticks left are counted down, for a waiting machine to the look and for one that holds to the try.
pub fn at_tick(m: u8, response: u8, present: bool) -> u8
    ensures { result ≡ byte_at_tick response present m }
{
    if m == REST {
        return at_call(m, response, present);
    }
    if TRIPPED <= m {
        return TRIPPED;
    }
    if m == 1 {
        return look(response, present, retries(response));
    }
    if m % 8 == 0 {
        return look(response, present, less_one(m / 8));
    }
    m - 1
}

// The machine holds its page off.
pub fn holds(m: u8) -> bool
    ensures { result ≡ byte_holds m }
{
    (8 < m) & (m < TRIPPED) & (m % 8 != 0)
}

// The machine has tripped its page.
fn trips(m: u8) -> bool
    ensures { result ≡ byte_trips m }
{
    TRIPPED <= m
}

// A step trips the page.
#[tactic(auto, unfolding(crate::specs::Byte::trips_now))]
pub fn trips_now(before: u8, after: u8) -> bool
    ensures { result ≡ trips_now before after }
{
    trips(after) & !trips(before)
}

// A value that runs give the byte.
pub fn valid(m: u8) -> bool
    ensures { result ≡ byte_valid m }
{
    m <= TRIPPED
}
