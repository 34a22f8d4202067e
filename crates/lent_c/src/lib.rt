// The static library of `lent` for C and Rust: the functions of that library under their own names, each with its clauses.
// A slice crosses as a pointer and a length, a struct by value. include/tongsorrel.h declares them for C.
#![tactic(auto)]

ghost use Rattle.std.specs.Prelude.{◌≡◌, ◌&&◌, ltb, length, get_or};
ghost use Rattle.page.specs.Page.{no_page};
ghost use Rattle.page.specs.Status.{supplies};
ghost use Rattle.device.specs.Device.{choice, device};
ghost use Rattle.device.specs.Step.{write, read, measure, sample, alert_response, tick, step};
ghost use Rattle.lent.specs.Lent.{beside, powered, powered_by};

use lent::Outcome;
use page::{Page, PageChoice};
use unpaged::Unpaged;

// Sets every record, whatever it held. With no record, or more than 96, it sets none and answers 15.
#[unsafe(no_mangle)]
pub extern "C" fn tongsorrel_lent_power_on(pages: &mut [Page]) -> Outcome
    ensures { beside result pages.new ≡ powered pages.old }
{
    lent::tongsorrel_lent_power_on(pages)
}

// Sets every record by its choice. With another number of choices than of records, or where one is not granted, it sets every record as
// tongsorrel_lent_power_on does and answers 27. With no record, or more than 96, it sets none and answers 15.
#[unsafe(no_mangle)]
pub extern "C" fn tongsorrel_lent_power_on_by(pages: &mut [Page], choices: &[PageChoice]) -> Outcome
    ensures { beside result pages.new ≡ powered_by (choice choices.now) pages.old }
{
    lent::tongsorrel_lent_power_on_by(pages, choices)
}

// A write transaction: the bytes from START to STOP.
#[unsafe(no_mangle)]
pub extern "C" fn tongsorrel_lent_write(u: Unpaged, pages: &mut [Page], bytes: &[u8]) -> Outcome
    ensures { beside result pages.new ≡ (step (device u pages.old) (write bytes.now)).done }
{
    lent::tongsorrel_lent_write(u, pages, bytes)
}

// A read transaction: its header, and as many reply bytes as the host clocks.
#[unsafe(no_mangle)]
pub extern "C" fn tongsorrel_lent_read(
    u: Unpaged,
    pages: &[Page],
    header: &[u8],
    reply: &mut [u8],
) -> Outcome
    ensures { (beside result pages.now ≡ (step (device u pages.now) (read header.now (length reply.old))).done)
        × (reply.new ≡ (step (device u pages.now) (read header.now (length reply.old))).reply) }
{
    lent::tongsorrel_lent_read(u, pages, header, reply)
}

// The latest word of a quantity (0 VOUT, 1 IOUT, 2 VIN, 3 temperature) on a page.
#[unsafe(no_mangle)]
pub extern "C" fn tongsorrel_lent_measure(
    u: Unpaged,
    pages: &mut [Page],
    page: u8,
    quantity: u8,
    word: u16,
) -> Outcome
    ensures { beside result pages.new ≡ (step (device u pages.old) (measure page quantity word)).done }
{
    lent::tongsorrel_lent_measure(u, pages, page, quantity, word)
}

// A power sample for the energy account.
#[unsafe(no_mangle)]
pub extern "C" fn tongsorrel_lent_sample(u: Unpaged, pages: &[Page], power: u16) -> Outcome
    ensures { beside result pages.now ≡ (step (device u pages.now) (sample power)).done }
{
    lent::tongsorrel_lent_sample(u, pages, power)
}

// The alert response: the device that holds the alert up answers with its address.
#[unsafe(no_mangle)]
pub extern "C" fn tongsorrel_lent_alert_response(
    u: Unpaged,
    pages: &[Page],
    reply: &mut [u8],
) -> Outcome
    ensures { (beside result pages.now ≡ (step (device u pages.now) (alert_response (length reply.old))).done)
        × (reply.new ≡ (step (device u pages.now) (alert_response (length reply.old))).reply) }
{
    lent::tongsorrel_lent_alert_response(u, pages, reply)
}

// A tick: one unit of the delays on every page.
#[unsafe(no_mangle)]
pub extern "C" fn tongsorrel_lent_tick(u: Unpaged, pages: &mut [Page]) -> Outcome
    ensures { beside result pages.new ≡ (step (device u pages.old) tick).done }
{
    lent::tongsorrel_lent_tick(u, pages)
}

// Whether page i supplies; no page beyond the records does. A question of one record, whatever their number.
#[unsafe(no_mangle)]
pub extern "C" fn tongsorrel_lent_supplies(pages: &[Page], i: u8) -> bool
    ensures { result ≡ (ltb i (length pages.now) && supplies (get_or pages.now i no_page)) }
{
    lent::tongsorrel_lent_supplies(pages, i)
}

// The layout of `Unpaged`, `Page` and `Outcome` has a number, which stands in this name: a program made for another does not link.
#[unsafe(no_mangle)]
pub extern "C" fn tongsorrel_lent_layout_2() -> u32
    ensures { result ≡ 2 }
{
    lent::tongsorrel_lent_layout_2()
}
