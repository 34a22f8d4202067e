// The device of `tongsorrel`, for C and Rust. Where a state comes in or goes out by value the call is that of `device`, which `tongsorrel`
// calls too: one function more in between is a copy more of the state on the stack.
ghost use Rattle.std.specs.Prelude.{◌≡◌, length};
ghost use Rattle.device.specs.Device.{choice, usual, power_on, power_on_by};
ghost use Rattle.device.specs.Step.{write, read, measure, sample, alert_response, tick, step};
ghost use Rattle.device.specs.Supply.{supplies_at};

use device::{Device, Done};
use tongsorrel::calls::Choices;

// The state that power-on leaves.
#[unsafe(no_mangle)]
pub extern "C" fn tongsorrel_power_on() -> Device
    ensures { result ≡ power_on (usual 8) }
{
    device::power_on()
}

// Power-on by a choice for each page: 27, and the state of tongsorrel_power_on, where a format is not valid.
#[unsafe(no_mangle)]
pub extern "C" fn tongsorrel_power_on_by(choices: Choices) -> Done
    ensures { result ≡ power_on_by (choice choices.pages) }
{
    device::power_on_by(choices.pages)
}

// A write transaction: the bytes from START to STOP.
#[unsafe(no_mangle)]
pub extern "C" fn tongsorrel_write(d: Device, bytes: &[u8]) -> Done
    ensures { result ≡ (step d (write bytes.now)).done }
{
    device::write(d, bytes)
}

// A read transaction: the header, and a reply buffer as long as the host clocks bytes.
#[unsafe(no_mangle)]
pub extern "C" fn tongsorrel_read(d: Device, header: &[u8], reply: &mut [u8]) -> Done
    ensures value { result ≡ (step d (read header.now (length reply.old))).done }
    ensures reply_after { reply.new ≡ (step d (read header.now (length reply.old))).reply }
{
    device::read(d, header, reply)
}

// The latest word of a quantity (0 VOUT, 1 IOUT, 2 VIN, 3 temperature) on a page.
#[unsafe(no_mangle)]
pub extern "C" fn tongsorrel_measure(d: Device, page: u8, quantity: u8, word: u16) -> Done
    ensures { result ≡ (step d (measure page quantity word)).done }
{
    device::measure(d, page, quantity, word)
}

// A power sample for the energy account.
#[unsafe(no_mangle)]
pub extern "C" fn tongsorrel_sample(d: Device, power: u16) -> Done
    ensures { result ≡ (step d (sample power)).done }
{
    device::sample(d, power)
}

// The alert response, with a reply buffer as long as the host clocks bytes.
#[unsafe(no_mangle)]
pub extern "C" fn tongsorrel_alert_response(d: Device, reply: &mut [u8]) -> Done
    ensures value { result ≡ (step d (alert_response (length reply.old))).done }
    ensures reply_after { reply.new ≡ (step d (alert_response (length reply.old))).reply }
{
    device::alert_response(d, reply)
}

// A tick: one unit of the delays on every page.
#[unsafe(no_mangle)]
pub extern "C" fn tongsorrel_tick(d: Device) -> Done
    ensures { result ≡ (step d tick).done }
{
    device::tick(d)
}

// Whether the firmware keeps the supply of a page switched on; a page over 7 is off.
#[unsafe(no_mangle)]
pub extern "C" fn tongsorrel_supplies(d: Device, page: u8) -> bool
    ensures { result ≡ supplies_at d.pages page }
{
    device::supply::supplies_page(d, page)
}

// The layout of the structs and of the state buffer has a number, which stands in this name: a program made for another does not link.
#[unsafe(no_mangle)]
pub extern "C" fn tongsorrel_layout_2() -> u32
    ensures { result ≡ 2 }
{
    tongsorrel::calls::tongsorrel_layout_2()
}
