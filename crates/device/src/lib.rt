// The shelf device: eight pages behind one address. Power-on and the six calls; each takes the whole state by value and
// hands it back with the answer number. Any bytes, numbers and states are taken.
#![tactic(auto)]

ghost use Rattle.std.specs.Prelude.{◌≡◌, map, length};
ghost use Rattle.page.specs.Choice.{chosen_page};
ghost use Rattle.device.specs.Device.{choice, usual, power_on, power_on_by};
ghost use Rattle.device.specs.Step.{write, read, measure, sample, alert_response, tick, step};

use answer::Refusal;
use page::{Page, PageChoice};
use unpaged::Unpaged;

pub mod answers; // answers.rt: the test for answer 15, and how a call ends
mod steps; // steps.rt: what an accepted call does to the pages
pub mod supply; // supply.rt: whether a supply is on

// The number of pages, by which PAGE and a measurement's page are held.
const PAGES: u8 = 8;

// As C has it.
#[repr(C)]
#[derive(Clone, Copy)]
pub struct Device {
    pub unpaged: Unpaged,
    pub pages: [Page; 8],
}

// The state after a call, and the answer number: a number and no Result, since C gets it.
#[repr(C)]
#[derive(Clone, Copy)]
pub struct Done {
    pub device: Device,
    pub answer: u8,
}

pub fn power_on() -> Device
    ensures { result ≡ power_on (usual 8) }
{
    Device {
        unpaged: unpaged::power_on_unpaged(),
        pages: [page::power_on_page(); 8],
    }
}

// The pages that power-on leaves by these choices.
fn chosen_pages(choices: [PageChoice; 8]) -> [Page; 8]
    ensures { result ≡ map chosen_page choices }
{
    let mut pages = [page::power_on_page(); 8];
    for (i, &c) in choices.iter().enumerate() {
        pages[i] = page::chosen_page(c);
    }
    pages
}

// Power-on by a choice for each page. Coefficients that are not valid get 27, and the device is then that of power_on.
pub fn power_on_by(choices: [PageChoice; 8]) -> Done
    ensures { result ≡ power_on_by (choice choices) }
{
    if !choices.iter().all(|&c| page::page_granted(c)) {
        return Done {
            device: power_on(),
            answer: Refusal::InvalidFormat.into(),
        };
    }
    Done {
        device: Device {
            unpaged: unpaged::power_on_unpaged(),
            pages: chosen_pages(choices),
        },
        answer: answer::DONE,
    }
}

// A write transaction: the bytes from START to STOP. Here and in the other calls the state is changed where it lies: each function
// that takes or gives one by value would be a copy more on the stack.
pub fn write(mut d: Device, bytes: &[u8]) -> Done
    ensures { result ≡ (step d (write bytes.now)).done }
{
    let rule = writes::answers::judge(PAGES, d.unpaged, bytes);
    let answer = answers::checked(answers::is_valid(&d), rule);
    let number = answers::number(answer);
    match answer {
        Ok(w) => steps::written(&mut d, w),
        Err(refusal) => answers::refuse(&mut d, refusal),
    }
    Done {
        device: d,
        answer: number,
    }
}

// A read transaction: the header, and a reply buffer as long as the host clocks bytes.
pub fn read(mut d: Device, header: &[u8], reply: &mut [u8]) -> Done
    ensures value { result ≡ (step d (read header.now (length reply.old))).done }
    ensures reply_after { reply.new ≡ (step d (read header.now (length reply.old))).reply }
{
    let p = steps::page_shown(&d);
    let request = reads::request::request_of(header).map_err(u8::from);
    let rule = reads::answers::request_answer(d.unpaged, p, request, reply.len());
    let answer = answers::answered(answers::is_valid(&d), rule);
    let stream = reads::data::read_stream(d.unpaged, p, answer, request, header);
    reads::reply::send(reply, stream.as_slice());
    d.unpaged = unpaged::refused(d.unpaged, answer);
    Done { device: d, answer }
}

// The latest word of a quantity (0 VOUT, 1 IOUT, 2 VIN, 3 temperature: a number, as C gives it) on a page.
pub fn measure(mut d: Device, page: u8, quantity: u8, word: u16) -> Done
    ensures { result ≡ (step d (measure page quantity word)).done }
{
    let rule = unpaged::events::measure_answer(PAGES, page, quantity);
    let answer = answers::checked(answers::is_valid(&d), rule);
    let number = answers::number(answer);
    match answer {
        Ok(named) => steps::measured(&mut d, page, named, word),
        Err(refusal) => answers::refuse(&mut d, refusal),
    }
    Done {
        device: d,
        answer: number,
    }
}

// A power sample for the energy account.
pub fn sample(mut d: Device, power: u16) -> Done
    ensures { result ≡ (step d (sample power)).done }
{
    let rule = account::sample(d.unpaged.energy, power);
    let answer = answers::checked(answers::is_valid(&d), rule);
    let number = answers::number(answer);
    match answer {
        Ok(energy) => d.unpaged.energy = energy,
        Err(refusal) => answers::refuse(&mut d, refusal),
    }
    Done {
        device: d,
        answer: number,
    }
}

// The alert response: the device that holds the alert up answers with its address, and takes the alert down.
pub fn alert_response(mut d: Device, reply: &mut [u8]) -> Done
    ensures value { result ≡ (step d (alert_response (length reply.old))).done }
    ensures reply_after { reply.new ≡ (step d (alert_response (length reply.old))).reply }
{
    let rule = unpaged::events::alert_answer(d.unpaged.alert, reply.len());
    let answer = answers::checked(answers::is_valid(&d), rule);
    let stream = reads::reply::alert_stream(answer);
    reads::reply::send(reply, stream.as_slice());
    let number = answers::number(answer);
    match answer {
        Ok(()) => d.unpaged.alert = false,
        Err(refusal) => answers::refuse(&mut d, refusal),
    }
    Done {
        device: d,
        answer: number,
    }
}

// A tick: one unit of the delays on every page.
pub fn tick(mut d: Device) -> Done
    ensures { result ≡ (step d tick).done }
{
    let answer = answers::checked(answers::is_valid(&d), Ok(()));
    let number = answers::number(answer);
    match answer {
        Ok(()) => steps::ticked(&mut d),
        Err(refusal) => answers::refuse(&mut d, refusal),
    }
    Done {
        device: d,
        answer: number,
    }
}
