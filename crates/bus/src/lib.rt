// One transaction as the bus hands it over, byte by byte: what is kept of it, which bytes get an ACK, and what is sent. The
// rules of a transaction are not here; at STOP the bytes kept go to them (crate stream).
#![tactic(auto)]

ghost use Rattle.std.specs.Prelude.{◌≡◌, min, get_or};
ghost use Rattle.bus.specs.Part.{in_phase, clocking, started, idle, part_valid};
ghost use Rattle.bus.specs.Automaton.{after_byte, after_again, after_clock, restarted, clocked, clock_byte};

pub mod ack; // ack.rt: ACK and NACK

// What is kept of a transaction. phase: 0 idle, 1 writing, 2 turning, 3 reading, 4 broken (specs/Automaton.antt has the
// picture). bytes: the first `count` bytes after START, the second address byte among them, no more than eleven. reply: what
// is sent for the first eight bytes clocked. clocked: how many were clocked, no more than nine.
// The fields are as they stand in the buffer that the firmware lends, whose every byte may be any: so the phase is a number and no
// enum, of which part_valid refuses all but these five, and the bytes kept have their number beside them.
#[repr(C)]
#[derive(Clone, Copy)]
pub struct Part {
    pub phase: u8,
    pub count: u8,
    pub bytes: [u8; 11],
    pub clocked: u8,
    pub reply: [u8; 8],
}

const IDLE: u8 = 0;

pub const WRITING: u8 = 1;

pub const TURNING: u8 = 2;

pub const READING: u8 = 3;

const BROKEN: u8 = 4;

// So many bytes are kept, and clocked bytes are counted up to this number.
const MOST_BYTES: u8 = 11;

const MOST_CLOCKED: u8 = 9;

// What is sent where there is no reply.
const NOTHING: u8 = 0xFF;

// How many bytes are kept.
pub fn kept(p: Part) -> usize
    ensures { result ≡ min p.count 11 }
{
    usize::from(p.count.min(MOST_BYTES))
}

// Each number is one that occurs.
#[tactic(auto, unfolding(crate::specs::Part::part_valid))]
pub fn part_valid(p: Part) -> bool
    ensures { result ≡ part_valid p }
{
    p.phase <= BROKEN && p.count <= MOST_BYTES && p.clocked <= MOST_CLOCKED
}

// No transaction.
#[tactic(auto, unfolding(crate::specs::Part::idle))]
pub fn idle() -> Part
    ensures { result ≡ idle }
{
    Part {
        phase: IDLE,
        count: 0,
        bytes: [0; 11],
        clocked: 0,
        reply: [NOTHING; 8],
    }
}

// START begins a transaction, whatever was under way.
#[tactic(auto, unfolding(crate::specs::Part::started, crate::specs::Part::idle))]
pub fn start() -> Part
    ensures { result ≡ started }
{
    Part {
        phase: WRITING,
        ..idle()
    }
}

// One more byte clocked; the count stops at nine.
#[tactic(auto, unfolding(crate::specs::Part::clocking))]
fn clocking(p: Part) -> Part
    ensures { result ≡ clocking p }
{
    if p.clocked < MOST_CLOCKED {
        return Part {
            clocked: p.clocked + 1,
            ..p
        };
    }
    p
}

// The phase after a byte that the host wrote.
#[tactic(auto, unfolding(crate::specs::Automaton::after_byte))]
pub fn after_byte(phase: u8) -> u8
    ensures { result ≡ after_byte phase }
{
    match phase {
        WRITING => WRITING,
        TURNING => READING,
        _ => BROKEN,
    }
}

#[tactic(auto, unfolding(crate::specs::Automaton::after_again))]
fn after_again(phase: u8) -> u8
    ensures { result ≡ after_again phase }
{
    if phase == WRITING { TURNING } else { BROKEN }
}

#[tactic(auto, unfolding(crate::specs::Automaton::after_clock))]
fn after_clock(phase: u8) -> u8
    ensures { result ≡ after_clock phase }
{
    if phase == READING { READING } else { BROKEN }
}

// A repeated START.
#[tactic(auto, unfolding(crate::specs::Automaton::restarted))]
pub fn restarted(p: Part) -> Part
    ensures { result ≡ restarted p }
{
    Part {
        phase: after_again(p.phase),
        ..p
    }
}

// A byte that the host clocks,
#[tactic(auto, unfolding(crate::specs::Automaton::clocked))]
pub fn clocked(p: Part) -> Part
    ensures { result ≡ clocked p }
{
    Part {
        phase: after_clock(p.phase),
        ..clocking(p)
    }
}

// and what is sent for it: the next byte of the reply, FFh past its end.
#[tactic(auto, unfolding(crate::specs::Automaton::clock_byte))]
pub fn clock_byte(p: Part) -> u8
    ensures { result ≡ clock_byte p }
{
    if p.phase != READING {
        return NOTHING;
    }
    p.reply
        .get(usize::from(p.clocked))
        .copied()
        .unwrap_or(NOTHING)
}
