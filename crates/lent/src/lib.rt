// The device whose page records the firmware lends, 1 to 96 of them, as a slice; the unpaged part goes in and comes back by
// value. Power-on and the calls of the eight-page device, over as many pages as are lent. Any number of records, and any
// values in them, are taken; with none, or more than 96, a call reads no record. A call takes one record out, asks the rules by
// value, and puts it back; of the others it only asks whether they are valid and, after a clearing, whether a status bit stands.
// A tick walks over all, and so does a write where PAGE is FFh: no record has that index, so the one taken out is none of them, and
// putting it back sets none.
#![tactic(auto)]

ghost use Rattle.std.specs.Prelude.{◌≡◌, ◌&&◌, eqb, ltb, length, get_or};
ghost use Rattle.page.specs.Page.{no_page};
ghost use Rattle.page.specs.Status.{supplies};
ghost use Rattle.device.specs.Device.{choice, device};
ghost use Rattle.device.specs.Step.{write, read, measure, sample, alert_response, tick, step};
ghost use Rattle.laws.specs.Lists.{all_of};
ghost use Rattle.page.specs.Choice.{page_granted};
ghost use Rattle.lent.specs.Every.{rising, swept};
ghost use Rattle.lent.specs.Lent.{beside, powered, powered_by};

use answer::Refusal;
use page::{Page, PageChoice};
use unpaged::Unpaged;
use writes::Write;

pub mod every; // every.rt: one write on every record, where PAGE is FFh
pub mod turns; // turns.rt: what a call decides, by value

// The unpaged part after a call, and the answer number: a number and no Result, since C gets it.
#[repr(C)]
#[derive(Clone, Copy)]
pub struct Outcome {
    pub unpaged: Unpaged,
    pub answer: u8,
}

// Sets every record, whatever it held. With no record, or more than 96, it sets none and answers 15.
#[unsafe(no_mangle)]
pub extern "C" fn tongsorrel_lent_power_on(pages: &mut [Page]) -> Outcome
    ensures { beside result pages.new ≡ powered pages.old }
{
    if !turns::lendable(pages.len()) {
        return turns::powered(Err(Refusal::InvalidState));
    }
    records::power_on(pages);
    turns::powered(Ok(()))
}

// As many choices as records, n, and each of them granted.
fn all_granted(choices: &[PageChoice], n: usize) -> bool
    ensures { result ≡ (eqb (length choices.now) n && all_of page_granted choices.now) }
{
    choices.len() == n && records::all_granted(choices)
}

// Sets every record by its choice. With another number of choices than of records, or where one is not granted, it sets every record as
// tongsorrel_lent_power_on does and answers 27. With no record, or more than 96, it sets none and answers 15.
#[unsafe(no_mangle)]
pub extern "C" fn tongsorrel_lent_power_on_by(pages: &mut [Page], choices: &[PageChoice]) -> Outcome
    ensures { beside result pages.new ≡ powered_by (choice choices.now) pages.old }
{
    if !turns::lendable(pages.len()) {
        return turns::powered(Err(Refusal::InvalidState));
    }
    if !all_granted(choices, pages.len()) {
        records::power_on(pages);
        return turns::powered(Err(Refusal::InvalidFormat));
    }
    records::power_on_by(pages, choices);
    turns::powered(Ok(()))
}

// The write that is still to be made on every record, where there is one: whether a status bit rose on any.
fn rest(pages: &mut [Page], write: Option<Write>) -> bool
    ensures rose { result ≡ rising write pages.old }
    ensures after { pages.new ≡ swept write pages.old }
{
    match write {
        Some(w) => every::every(pages, w),
        None => false,
    }
}

// A write transaction: the bytes from START to STOP.
#[unsafe(no_mangle)]
pub extern "C" fn tongsorrel_lent_write(u: Unpaged, pages: &mut [Page], bytes: &[u8]) -> Outcome
    ensures { beside result pages.new ≡ (step (device u pages.old) (write bytes.now)).done }
{
    let seen = records::survey(pages);
    let p = records::take(pages, u.page);
    // without their number no record is valid: the turn is then a refusal, whatever is judged here
    let judged = turns::judged(bytes, seen.unwrap_or(0), u);
    let t = turns::write_turn(seen, u, p, judged);
    records::put(pages, u.page, t.page);
    let rose = rest(pages, t.every);
    let standing = t.clears && records::any_bit(pages);
    turns::finished(t.outcome, t.clears, rose, standing)
}

// A read transaction: its header, and as many reply bytes as the host clocks.
#[unsafe(no_mangle)]
pub extern "C" fn tongsorrel_lent_read(
    u: Unpaged,
    pages: &[Page],
    header: &[u8],
    reply: &mut [u8],
) -> Outcome
    ensures { (beside result pages.now ≡ (step (device u pages.now) (read header.now (length reply.old))).done)
        × (reply.new ≡ (step (device u pages.now) (read header.now (length reply.old))).reply) }
{
    let seen = records::survey(pages);
    let p = records::take(pages, unpaged::shown(u));
    let t = turns::read_turn(header, seen, u, p, reply.len());
    reads::reply::send(reply, t.stream.as_slice());
    t.outcome
}

// The latest word of a quantity (0 VOUT, 1 IOUT, 2 VIN, 3 temperature: a number, as C gives it) on a page.
#[unsafe(no_mangle)]
pub extern "C" fn tongsorrel_lent_measure(
    u: Unpaged,
    pages: &mut [Page],
    page: u8,
    quantity: u8,
    word: u16,
) -> Outcome
    ensures { beside result pages.new ≡ (step (device u pages.old) (measure page quantity word)).done }
{
    let seen = records::survey(pages);
    let p = records::take(pages, page);
    let t = turns::measure_turn(seen, u, p, page, quantity, word);
    records::put(pages, page, t.page);
    t.outcome
}

// A power sample for the energy account.
#[unsafe(no_mangle)]
pub extern "C" fn tongsorrel_lent_sample(u: Unpaged, pages: &[Page], power: u16) -> Outcome
    ensures { beside result pages.now ≡ (step (device u pages.now) (sample power)).done }
{
    let seen = records::survey(pages);
    turns::sample_outcome(seen, u, power)
}

// The alert response: the device that holds the alert up answers with its address.
#[unsafe(no_mangle)]
pub extern "C" fn tongsorrel_lent_alert_response(
    u: Unpaged,
    pages: &[Page],
    reply: &mut [u8],
) -> Outcome
    ensures { (beside result pages.now ≡ (step (device u pages.now) (alert_response (length reply.old))).done)
        × (reply.new ≡ (step (device u pages.now) (alert_response (length reply.old))).reply) }
{
    let seen = records::survey(pages);
    let t = turns::alert_turn(seen, u, reply.len());
    reads::reply::send(reply, t.stream.as_slice());
    t.outcome
}

// A tick: one unit of the delays on every page.
#[unsafe(no_mangle)]
pub extern "C" fn tongsorrel_lent_tick(u: Unpaged, pages: &mut [Page]) -> Outcome
    ensures { beside result pages.new ≡ (step (device u pages.old) tick).done }
{
    let seen = records::survey(pages);
    let r = turns::tick_outcome(seen, u);
    if r.answer != answer::DONE {
        return r;
    }
    records::tick(pages);
    r
}

// Whether page i supplies; no page beyond the records does. A question of one record, whatever their number.
#[tactic(auto, unfolding(device::specs::Supply::supplies_at))]
#[unsafe(no_mangle)]
pub extern "C" fn tongsorrel_lent_supplies(pages: &[Page], i: u8) -> bool
    ensures { result ≡ (ltb i (length pages.now) && supplies (get_or pages.now i no_page)) }
{
    device::supply::supplies(pages, i)
}

// The layout of `Unpaged`, `Page` and `Outcome` has a number, which stands in this name: a program made for another does not link.
#[unsafe(no_mangle)]
pub extern "C" fn tongsorrel_lent_layout_2() -> u32
    ensures { result ≡ 2 }
{
    2
}
