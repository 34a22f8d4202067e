// What STOP ends: a write, a read, or nothing orderly. Its effect goes into the buffer; nothing is kept of the transaction by then.
ghost use Rattle.std.specs.Prelude.{◌≡◌};
ghost use Rattle.bus.specs.Part.{heard};
ghost use Rattle.device.specs.Step.{write, read, refused_device, step};
ghost use Rattle.stream.specs.Stream.{ended};
ghost use Rattle.layout.specs.State.{device_of};
ghost use Rattle.buffer.specs.Buffer.{stores, end_stores, store_device};
ghost use Rattle.buffer.specs.Private.{Held, store_unpaged};

use super::every_page;
use answer::Refusal;
use bus::Part;
use layout::{SIZE, pages, state};

// A write: the selected page, or every page, and the unpaged part change where they stand.
fn written(s: &mut [u8; SIZE], kept: Part) -> u8
    requires { Held s.old }
    ensures answer { result ≡ (step (device_of s.old) (write (heard kept))).done.answer }
    ensures left { s.new ≡ store_device (stores (device_of s.old) (write (heard kept))) s.old (step (device_of s.old) (write (heard kept))).done.device }
{
    let u = state::unpaged_of(s);
    let p = pages::page_at(s, u.page);
    let write = stream::judged(u, kept);
    let turn = lent::turns::write_left(u, p, write);
    pages::put_page(s, u.page, turn.outcome.answer == answer::DONE, turn.page);
    let rose = every_page::rest(s, turn.every);
    let standing = every_page::any_bit(s, turn.clears);
    let outcome = lent::turns::finished(turn.outcome, turn.clears, rose, standing);
    state::set_unpaged(s, outcome.unpaged);
    outcome.answer
}

// What an answer leaves that changes no page: at most a bit of STATUS_CML, and the alert.
fn refuse(s: &mut [u8; SIZE], answer: u8)
    requires { Held s.old }
    ensures { s.new ≡ store_unpaged s.old (refused_device (device_of s.old) answer) }
{
    let u = state::unpaged_of(s);
    state::set_unpaged(s, unpaged::refused(u, answer));
}

// A read: its reply was made at the second address byte.
fn finished(s: &mut [u8; SIZE], kept: Part) -> u8
    requires { Held s.old }
    ensures answer { result ≡ (step (device_of s.old) (read (heard kept) kept.clocked)).done.answer }
    ensures left { s.new ≡ store_unpaged s.old (step (device_of s.old) (read (heard kept) kept.clocked)).done.device }
{
    let u = state::unpaged_of(s);
    let k = unpaged::shown(u);
    let p = pages::page_at(s, k);
    let answer = answer::number(stream::read_answer(u, p, kept));
    refuse(s, answer);
    answer
}

// Nothing orderly was under way. Answer 2 sets no bit of STATUS_CML.
fn disordered(s: &mut [u8; SIZE]) -> u8
    requires { Held s.old }
    ensures answer { result ≡ 2 }
    ensures left { s.new ≡ store_unpaged s.old (device_of s.old) }
{
    refuse(s, Refusal::Malformed as u8);
    Refusal::Malformed as u8
}

// By a slice, as docs/ARCHITECTURE.md and PROMISES.md name it.
pub fn ended(s: &mut [u8], kept: Part) -> u8
    requires { Held s.old }
    ensures { (result ≡ (ended (device_of s.old) kept).answer)
        × (s.new ≡ store_device (end_stores (device_of s.old) kept) s.old (ended (device_of s.old) kept).device) }
{
    let Some(s) = s.as_mut_array() else {
        unreachable!();
    };
    match kept.phase {
        bus::WRITING => written(s, kept),
        bus::READING => finished(s, kept),
        _ => disordered(s),
    }
}
