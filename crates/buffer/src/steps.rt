// The five events over a state buffer.
ghost use Rattle.std.specs.Prelude.{◌≡◌, cond};
ghost use Rattle.bus.specs.Automaton.{start, byte, again, clock, stop};
ghost use Rattle.bus.specs.Part.{heard};
ghost use Rattle.bus.specs.Ack.{ack_of};
ghost use Rattle.device.specs.Step.{read, step};
ghost use Rattle.layout.specs.State.{part_of, device_of};
ghost use Rattle.buffer.specs.Buffer.{event_fed, event_gives};
ghost use Rattle.buffer.specs.Private.{Keeping, store_reply};

use super::{ready_buffer, stopping};
use answer::Refusal;
use layout::part::keep;
use layout::{SIZE, pages, state};

// START: 0, or 15.
pub fn start(s: &mut [u8]) -> u8
    ensures { (result ≡ event_gives s.old start) × (s.new ≡ event_fed s.old start) }
{
    let Some(s) = ready_buffer(s) else {
        return Refusal::InvalidState as u8;
    };
    state::set_part(s, bus::start());
    answer::DONE
}

// A repeated START: 0, or 15.
pub fn again(s: &mut [u8]) -> u8
    ensures { (result ≡ event_gives s.old again) × (s.new ≡ event_fed s.old again) }
{
    let Some(s) = ready_buffer(s) else {
        return Refusal::InvalidState as u8;
    };
    let p = state::part_of(s);
    state::set_part(s, bus::restarted(p));
    answer::DONE
}

// ACK or NACK for the byte b.
fn acknowledged(s: &[u8; SIZE], b: u8) -> bool
    requires { Keeping s.now }
    ensures { result ≡ ack_of (part_of s.now) b }
{
    let e = 2 + usize::from(s[1]);
    bus::ack::ack_in(s[0], &s[2..e], b)
}

// The reply to the bytes kept, of the page shown alone.
fn reply(s: &[u8; SIZE]) -> [u8; 8]
    requires { Keeping s.now }
    ensures { result ≡ (step (device_of s.now) (read (heard (part_of s.now)) 8)).reply }
{
    let u = state::unpaged_of(s);
    let k = unpaged::shown(u);
    let page = pages::page_at(s, k);
    let e = 2 + usize::from(s[1]);
    stream::reply(u, page, &s[2..e])
}

// The second address byte has come, where that is so: the whole reply is made, and kept.
fn answer(s: &mut [u8; SIZE], second: bool)
    requires { Keeping s.old }
    ensures { s.new ≡ cond second (store_reply s.old (step (device_of s.old) (read (heard (part_of s.old)) 8)).reply) s.old }
{
    if second {
        let reply = reply(s);
        state::set_reply(s, reply);
    }
}

// A byte that the host wrote: 1 for ACK, 0 for NACK.
pub fn byte(s: &mut [u8], b: u8) -> u8
    ensures { (result ≡ event_gives s.old (byte b)) × (s.new ≡ event_fed s.old (byte b)) }
{
    let Some(s) = ready_buffer(s) else {
        return 0;
    };
    let ack = acknowledged(s, b);
    let second = s[0] == bus::TURNING;
    keep(s, b);
    answer(s, second);
    u8::from(ack)
}

// A byte that the host clocks: what is sent.
pub fn clock(s: &mut [u8]) -> u8
    ensures { (result ≡ event_gives s.old clock) × (s.new ≡ event_fed s.old clock) }
{
    let Some(s) = ready_buffer(s) else {
        return 0xFF;
    };
    let p = state::part_of(s);
    state::set_part(s, bus::clocked(p));
    bus::clock_byte(p)
}

// STOP: the answer.
pub fn stop(s: &mut [u8]) -> u8
    ensures { (result ≡ event_gives s.old stop) × (s.new ≡ event_fed s.old stop) }
{
    let Some(s) = ready_buffer(s) else {
        return Refusal::InvalidState as u8;
    };
    let p = state::part_of(s);
    state::set_part(s, bus::idle());
    stopping::ended(s, p)
}
