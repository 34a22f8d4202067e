// The other calls over a state buffer, power-on, and what the firmware asks between two calls. The rules are those of lent records, with
// the eight pages of the buffer. `Held` stands in the contract of each private function, here and in stopping.rt: a type with that as its
// invariant would have to show it at each store of a call, where it is not so until the last.
ghost use Rattle.std.specs.Prelude.{◌≡◌, true, false, [], length, MatchOption};
ghost use Rattle.reads.specs.Reply.{reply_of};
ghost use Rattle.device.specs.Device.{choice, power_on};
ghost use Rattle.device.specs.Step.{measure, sample, alert_response, tick, step};
ghost use Rattle.device.specs.Supply.{supplies_at};
ghost use Rattle.bus.specs.Part.{idle};
ghost use Rattle.stream.specs.Stream.{state};
ghost use Rattle.layout.specs.Layout.{choices_in};
ghost use Rattle.layout.specs.State.{encode, device_of};
ghost use Rattle.buffer.specs.Buffer.{stores, store_device, call_fed, call_gives, call_sends, power_fed, power_gives, power_by_fed, power_by_gives, buffer_supplies, buffer_alert};
ghost use Rattle.buffer.specs.Private.{Held, store_unpaged, Answers, fresh, choices_granted};

use super::{every_page, ready_buffer};
use answer::Refusal;
use layout::stored::all_valid;
use layout::{CHOICES, SIZE, pages, state};
use lent::turns::Sending;
use page::PageChoice;

fn measured(s: &mut [u8; SIZE], page: u8, quantity: u8, word: u16) -> u8
    requires { Held s.old }
    ensures answer { result ≡ (step (device_of s.old) (measure page quantity word)).done.answer }
    ensures left { s.new ≡ store_device (stores (device_of s.old) (measure page quantity word)) s.old (step (device_of s.old) (measure page quantity word)).done.device }
{
    let u = state::unpaged_of(s);
    let p = pages::page_at(s, page);
    let seen = stream::eight_valid();
    let turn = lent::turns::measure_turn(seen, u, p, page, quantity, word);
    let outcome = turn.outcome;
    pages::put_page(s, page, outcome.answer == answer::DONE, turn.page);
    state::set_unpaged(s, outcome.unpaged);
    outcome.answer
}

// The latest word of a quantity (0 VOUT, 1 IOUT, 2 VIN, 3 temperature) on a page.
pub fn measure(s: &mut [u8], page: u8, quantity: u8, word: u16) -> u8
    ensures { (result ≡ call_gives s.old (measure page quantity word)) × (s.new ≡ call_fed s.old (measure page quantity word)) }
{
    match ready_buffer(s) {
        Some(s) => measured(s, page, quantity, word),
        None => Refusal::InvalidState as u8,
    }
}

fn sampled(s: &mut [u8; SIZE], power: u16) -> u8
    requires { Held s.old }
    ensures answer { result ≡ (step (device_of s.old) (sample power)).done.answer }
    ensures left { s.new ≡ store_unpaged s.old (step (device_of s.old) (sample power)).done.device }
{
    let u = state::unpaged_of(s);
    let seen = stream::eight_valid();
    let outcome = lent::turns::sample_outcome(seen, u, power);
    state::set_unpaged(s, outcome.unpaged);
    outcome.answer
}

// A power sample for the energy account.
pub fn sample(s: &mut [u8], power: u16) -> u8
    ensures { (result ≡ call_gives s.old (sample power)) × (s.new ≡ call_fed s.old (sample power)) }
{
    match ready_buffer(s) {
        Some(s) => sampled(s, power),
        None => Refusal::InvalidState as u8,
    }
}

// The unpaged part stays; its alert mark is stored as 0 or 1.
fn ticked(s: &mut [u8; SIZE]) -> u8
    requires { Held s.old }
    ensures answer { result ≡ (step (device_of s.old) tick).done.answer }
    ensures left { s.new ≡ store_device (stores (device_of s.old) tick) s.old (step (device_of s.old) tick).done.device }
{
    let u = state::unpaged_of(s);
    every_page::tick_each(s);
    state::set_unpaged(s, u);
    answer::DONE
}

// A tick: one unit of the delays on every page.
pub fn tick(s: &mut [u8]) -> u8
    ensures { (result ≡ call_gives s.old tick) × (s.new ≡ call_fed s.old tick) }
{
    match ready_buffer(s) {
        Some(s) => ticked(s),
        None => Refusal::InvalidState as u8,
    }
}

// An answered or refused alert response of n bytes.
fn alert_turn(s: &[u8; SIZE], n: usize) -> Sending
    requires { Held s.now }
    ensures { Answers s.now (alert_response n) result }
{
    let u = state::unpaged_of(s);
    let seen = stream::eight_valid();
    lent::turns::alert_turn(seen, u, n)
}

fn alerted(s: &mut [u8; SIZE], reply: &mut [u8]) -> u8
    requires { Held s.old }
    ensures answer { result ≡ (step (device_of s.old) (alert_response (length reply.old))).done.answer }
    ensures left { s.new ≡ store_unpaged s.old (step (device_of s.old) (alert_response (length reply.old))).done.device }
    ensures sends { reply.new ≡ (step (device_of s.old) (alert_response (length reply.old))).reply }
{
    let turn = alert_turn(s, reply.len());
    reads::reply::send(reply, turn.stream.as_slice());
    state::set_unpaged(s, turn.outcome.unpaged);
    turn.outcome.answer
}

// Every byte of the reply of a state that gets 15.
fn nothing_sent(reply: &mut [u8]) -> u8
    ensures answer { result ≡ 15 }
    ensures sends { reply.new ≡ reply_of [] (length reply.old) }
{
    reads::reply::send(reply, &[]);
    Refusal::InvalidState as u8
}

// The alert response: the device that holds the alert up answers with its address.
pub fn alert_response(s: &mut [u8], reply: &mut [u8]) -> u8
    ensures { (result ≡ call_gives s.old (alert_response (length reply.old)))
        × ((s.new ≡ call_fed s.old (alert_response (length reply.old)))
        × (reply.new ≡ call_sends s.old (alert_response (length reply.old)))) }
{
    match ready_buffer(s) {
        Some(s) => alerted(s, reply),
        None => nothing_sent(reply),
    }
}

// No transaction, and the unpaged part as power-on leaves it.
fn started(s: &mut [u8; SIZE])
    ensures { s.new ≡ fresh s.old }
{
    state::set_part(s, bus::idle());
    state::set_unpaged(s, unpaged::power_on_unpaged());
}

fn powered(s: &mut [u8; SIZE])
    ensures { s.new ≡ power_fed s.old }
{
    started(s);
    every_page::power_on_each(s);
}

// Power-on of a buffer, whatever it holds: 0, or 15 for another length.
pub fn power_on(s: &mut [u8]) -> u8
    ensures { (result ≡ power_gives s.old) × (s.new ≡ power_fed s.old) }
{
    match s.as_mut_array() {
        Some(s) => {
            powered(s);
            answer::DONE
        }
        None => Refusal::InvalidState as u8,
    }
}

// Power-on by choices that are granted.
fn chosen(s: &mut [u8; SIZE], choices: &[u8; CHOICES])
    ensures { s.new ≡ encode (state idle (power_on (choice (choices_in choices.now)))) }
{
    started(s);
    every_page::choose_each(s, choices);
}

// The choices, where power-on grants them: as many bytes as eight choices have, and each with valid coefficients under its DIRECT marks.
fn granted_choices(choices: &[u8]) -> Option<&[u8; CHOICES]>
    ensures { MatchOption result (choices_granted choices.now ≡ false) (λ t. (choices_granted choices.now ≡ true) × (t.now ≡ choices.now)) }
{
    let choices = choices.as_array()?;
    if all_valid::<PageChoice, 8>(choices, 0) {
        Some(choices)
    } else {
        None
    }
}

// Power-on of a buffer by a choice for each page: 0; 15 for a buffer of another length, which is left; 27 for choices that are not granted, and
// the buffer is then as power_on leaves it.
pub fn power_on_by(s: &mut [u8], choices: &[u8]) -> u8
    ensures { (result ≡ power_by_gives s.old choices.now) × (s.new ≡ power_by_fed s.old choices.now) }
{
    let Some(s) = s.as_mut_array() else {
        return Refusal::InvalidState as u8;
    };
    let Some(choices) = granted_choices(choices) else {
        powered(s);
        return Refusal::InvalidFormat as u8;
    };
    chosen(s, choices);
    answer::DONE
}

fn supplying(s: &[u8; SIZE], i: u8) -> bool
    ensures { result ≡ supplies_at (device_of s.now).pages i }
{
    page::status::supplies(pages::page_at(s, i))
}

// Whether the firmware keeps the supply of page i switched on: 1 or 0.
pub fn supplies(s: &[u8], i: u8) -> u8
    ensures { result ≡ buffer_supplies s.now i }
{
    match s.as_array() {
        Some(s) => u8::from(supplying(s, i)),
        None => 0,
    }
}

// Whether the alert is up: 1 or 0.
pub fn alert(s: &[u8]) -> u8
    ensures { result ≡ buffer_alert s.now }
{
    match s.as_array::<SIZE>() {
        Some(s) => u8::from(state::unpaged_of(s).alert),
        None => 0,
    }
}
