// What a call decides, by value: from what is known of all records, the unpaged part and the one record that the call works
// on. That this is the call's definition wherever it is known of the records lent is shown once (proofs/Known.antt).
// These three are no struct: they come from three places, each is used without the others by what is called here, and a struct would
// be made at each call for one use.
ghost use Rattle.std.specs.Prelude.{◌≡◌, cond, true, false, Some, None, IfOk, IfErr};
ghost use Rattle.answer.specs.Answer.{number_of, answer_of};
ghost use Rattle.account.specs.Account.{sampled};
ghost use Rattle.cause.specs.Kinds.{quantity_number};
ghost use Rattle.unpaged.specs.Unpaged.{power_on_unpaged};
ghost use Rattle.unpaged.specs.Events.{measure_answer, alert_answer};
ghost use Rattle.writes.specs.declared.asked.Write.{Write as Asked};
ghost use Rattle.writes.specs.Asked.{asked};
ghost use Rattle.writes.specs.Answers.{write_answer};
ghost use Rattle.writes.specs.Left.{page_left};
ghost use Rattle.reads.specs.Request.{request_of};
ghost use Rattle.reads.specs.Answers.{request_answer, read_answer};
ghost use Rattle.device.specs.Device.{supported};
ghost use Rattle.lent.specs.Lent.{seen_valid, seen_answer, outcome, turn, refused_outcome, accepted_turn, measured_turn, write_turn, answered_turn, measure_turn, finished, sample_left, alert_left, read_turn, alert_turn};

use super::Outcome;
use account::Account;
use answer::Refusal;
use cause::Quantity;
use page::Page;
use reads::reply::Stream;
use reads::request::Request;
use unpaged::{EVERY_PAGE, Unpaged};
use writes::Write;

// What a write or a measurement leaves: the record, and the unpaged part with its answer. The write that is still to be made on
// every record, and whether the alert, after a clearing, is still to be worked out from all.
#[derive(Clone, Copy)]
pub struct Turn {
    pub outcome: Outcome,
    pub page: Page,
    pub every: Option<Write>,
    pub clears: bool,
}

// What a read or an alert response leaves, and the bytes that it sends.
#[derive(Clone, Copy)]
pub struct Sending {
    pub outcome: Outcome,
    pub stream: Stream,
}

// So many records make a device.
#[tactic(auto, unfolding(device::specs::Device::supported))]
pub(crate) fn lendable(n: usize) -> bool
    ensures { result ≡ supported n }
{
    (1..=96).contains(&n)
}

// The number of records, of a state that no answer 15 goes to.
#[tactic(auto, unfolding(crate::specs::Lent::seen_valid))]
fn valid_number(seen: Option<u8>, u: Unpaged) -> Result<u8, Refusal>
    ensures number { IfOk result (λ n. (seen ≡ Some n) × (seen_valid seen u ≡ true)) }
    ensures refusal { IfErr result (λ e. (e ≡ Refusal.InvalidState) × (seen_valid seen u ≡ false)) }
{
    match seen {
        Some(n) if lendable(usize::from(n)) && unpaged::unpaged_valid(n, u) => Ok(n),
        _ => Err(Refusal::InvalidState),
    }
}

// A call that is done leaves this unpaged part,
fn done(u: Unpaged) -> Outcome
    ensures { result ≡ outcome u 0 }
{
    Outcome {
        unpaged: u,
        answer: answer::DONE,
    }
}

// and one that is refused all of it but a bit of STATUS_CML and the alert.
#[tactic(auto, unfolding(crate::specs::Lent::refused_outcome))]
fn refused(u: Unpaged, refusal: Refusal) -> Outcome
    ensures { result ≡ refused_outcome u (number_of refusal) }
{
    Outcome {
        unpaged: unpaged::after(u, refusal),
        answer: refusal.into(),
    }
}

// Power-on with this answer.
pub(crate) fn powered(answer: Result<(), Refusal>) -> Outcome
    ensures { result ≡ outcome power_on_unpaged (answer_of answer) }
{
    Outcome {
        unpaged: unpaged::power_on_unpaged(),
        answer: answer::number(answer),
    }
}

// The record after an accepted write. Where the write acts on every page p is none of them, and no time is spent on it.
fn one_left(w: Write, p: Page, every: bool) -> Page
    ensures { result ≡ cond every p (page_left w p) }
{
    if every {
        return p;
    }
    writes::left::page_left(w, p)
}

// An accepted write. Where it acts on every page the bits of p do not count.
#[tactic(auto, unfolding(crate::specs::Lent::accepted_turn))]
fn accepted(u: Unpaged, p: Page, w: Write) -> Turn
    ensures { result ≡ accepted_turn u p w }
{
    let every = u.page == EVERY_PAGE;
    let q = one_left(w, p, every);
    let mut v = writes::left::unpaged_left(w, u);
    v.alert |= page::status::risen(p, q) & !every;
    Turn {
        outcome: done(v),
        page: q,
        every: every.then_some(w),
        clears: writes::left::clears(w),
    }
}

// A refused write or measurement: the record p stays.
fn unturned(u: Unpaged, p: Page, refusal: Refusal) -> Turn
    ensures { result ≡ turn (refused_outcome u (number_of refusal)) p None false }
{
    Turn {
        outcome: refused(u, refusal),
        page: p,
        every: None,
        clears: false,
    }
}

// A write that asks for this or is refused, and whose selected record is p.
#[tactic(auto, unfolding(crate::specs::Lent::write_turn))]
pub fn write_left(u: Unpaged, p: Page, write: Result<Write, Refusal>) -> Turn
    ensures { result ≡ write_turn u p write }
{
    match write {
        Ok(w) => accepted(u, p, w),
        Err(refusal) => unturned(u, p, refusal),
    }
}

// What a write asks for, if its rule accepts it where n records are lent: its bytes are decoded here and nowhere else.
pub fn judged(bytes: &[u8], n: u8, u: Unpaged) -> Result<Write, Refusal>
    ensures answer { answer_of result ≡ write_answer n u bytes.now }
    ensures write { IfOk result (λ w. w ≡ asked bytes.now) }
{
    writes::answers::judge(n, u, bytes)
}

// A write that was judged so, and whose selected record is p: of a state that is not valid it is refused, however it was judged.
#[tactic(auto, using(crate::proofs::Seen::seen_accepted, crate::proofs::Judged::judged_turn, crate::proofs::Judged::refused_turn))]
pub fn write_turn(seen: Option<u8>, u: Unpaged, p: Page, judged: Result<Write, Refusal>) -> Turn
    ensures { (w : Asked) → IfOk judged (λ x. x ≡ w) → result ≡ answered_turn u p (seen_answer seen u (λ n. answer_of judged)) w }
{
    match valid_number(seen, u) {
        Ok(_) => write_left(u, p, judged),
        Err(invalid) => unturned(u, p, invalid),
    }
}

// The outcome of a write: the alert rises with a bit that rose on any record; after a clearing it follows the bits that
// stand.
#[tactic(auto, unfolding(crate::specs::Lent::finished))]
pub fn finished(r: Outcome, clears: bool, rose: bool, standing: bool) -> Outcome
    ensures { result ≡ finished r clears rose standing }
{
    let mut v = r.unpaged;
    v.alert |= rose;
    if clears {
        v.alert = standing | (v.cml != 0);
    }
    Outcome { unpaged: v, ..r }
}

// An accepted measurement.
#[tactic(auto, unfolding(crate::specs::Lent::measured_turn))]
fn measured(u: Unpaged, p: Page, quantity: Quantity, word: u16) -> Turn
    ensures { result ≡ measured_turn u p (quantity_number quantity) word }
{
    let changed = page::settings::set_measurement(p, quantity, word);
    let q = page::causes::settled(changed);
    let mut v = u;
    v.alert |= page::status::risen(p, q);
    Turn {
        outcome: done(v),
        page: q,
        every: None,
        clears: false,
    }
}

// The quantity that a measurement names, if it is accepted.
#[tactic(auto, using(crate::proofs::Seen::seen_accepted, crate::proofs::Seen::seen_refused))]
fn measurable(seen: Option<u8>, u: Unpaged, page: u8, quantity: u8) -> Result<Quantity, Refusal>
    ensures answer { answer_of result ≡ seen_answer seen u (λ n. measure_answer n page quantity) }
    ensures named { IfOk result (λ q. quantity_number q ≡ quantity) }
{
    let n = valid_number(seen, u)?;
    unpaged::events::measure_answer(n, page, quantity)
}

// A measurement on a page whose record is p.
#[tactic(auto, unfolding(crate::specs::Lent::measure_turn))]
pub fn measure_turn(
    seen: Option<u8>,
    u: Unpaged,
    p: Page,
    page: u8,
    quantity: u8,
    word: u16,
) -> Turn
    ensures { result ≡ measure_turn u p (seen_answer seen u (λ n. measure_answer n page quantity)) quantity word }
{
    match measurable(seen, u, page, quantity) {
        Ok(named) => measured(u, p, named, word),
        Err(refusal) => unturned(u, p, refusal),
    }
}

// The account after a power sample, if it is accepted.
#[tactic(auto, using(crate::proofs::Seen::seen_accepted, crate::proofs::Seen::seen_refused))]
fn booked(seen: Option<u8>, u: Unpaged, power: u16) -> Result<Account, Refusal>
    ensures answer { answer_of result ≡ seen_answer seen u (λ n. (sampled u.energy power).answer) }
    ensures account { IfOk result (λ a. a ≡ (sampled u.energy power).account) }
{
    valid_number(seen, u)?;
    account::sample(u.energy, power)
}

// A power sample.
#[tactic(auto, unfolding(crate::specs::Lent::sample_left))]
pub fn sample_outcome(seen: Option<u8>, u: Unpaged, power: u16) -> Outcome
    ensures { result ≡ sample_left u (seen_answer seen u (λ n. (sampled u.energy power).answer)) power }
{
    match booked(seen, u, power) {
        Ok(energy) => done(unpaged::with_energy(u, energy)),
        Err(refusal) => refused(u, refusal),
    }
}

// A tick.
#[tactic(auto, using(crate::proofs::Seen::seen_accepted, crate::proofs::Seen::seen_refused))]
pub fn tick_outcome(seen: Option<u8>, u: Unpaged) -> Outcome
    ensures { result ≡ outcome u (seen_answer seen u (λ n. 0)) }
{
    match valid_number(seen, u) {
        Ok(_) => done(u),
        Err(refusal) => Outcome {
            unpaged: u,
            answer: refusal.into(),
        },
    }
}

// The number of the answer of a read that asks for this, of the record p, with n bytes clocked.
#[tactic(auto, using(crate::proofs::Seen::seen_accepted, crate::proofs::Seen::seen_refused))]
fn readable(seen: Option<u8>, u: Unpaged, p: Page, request: Result<Request, u8>, n: usize) -> u8
    ensures { result ≡ seen_answer seen u (λ k. request_answer u p request n) }
{
    match valid_number(seen, u) {
        Ok(_) => reads::answers::request_answer(u, p, request, n),
        Err(refusal) => refusal.into(),
    }
}

// A read that looks at the record p, with n bytes clocked.
pub fn read_turn(header: &[u8], seen: Option<u8>, u: Unpaged, p: Page, n: usize) -> Sending
    ensures { result ≡ read_turn u p (seen_answer seen u (λ k. read_answer u p header.now n)) (request_of header.now) header.now }
{
    let request = reads::request::request_of(header).map_err(u8::from);
    let answer = readable(seen, u, p, request, n);
    Sending {
        outcome: Outcome {
            unpaged: unpaged::refused(u, answer),
            answer,
        },
        stream: reads::data::read_stream(u, p, answer, request, header),
    }
}

// The answer of an alert response of n bytes.
#[tactic(auto, using(crate::proofs::Seen::seen_accepted, crate::proofs::Seen::seen_refused))]
fn answerable(seen: Option<u8>, u: Unpaged, n: usize) -> Result<(), Refusal>
    ensures { answer_of result ≡ seen_answer seen u (λ k. alert_answer u.alert n) }
{
    valid_number(seen, u)?;
    unpaged::events::alert_answer(u.alert, n)
}

// What an alert response with this answer leaves: the alert down, where it is answered.
#[tactic(auto, unfolding(crate::specs::Lent::alert_left))]
fn alert_down(u: Unpaged, answer: Result<(), Refusal>) -> Outcome
    ensures { result ≡ alert_left u (answer_of answer) }
{
    match answer {
        Ok(()) => done(Unpaged { alert: false, ..u }),
        Err(refusal) => refused(u, refusal),
    }
}

// An alert response of n bytes.
#[tactic(auto, unfolding(crate::specs::Lent::alert_turn))]
pub fn alert_turn(seen: Option<u8>, u: Unpaged, n: usize) -> Sending
    ensures { result ≡ alert_turn u (seen_answer seen u (λ k. alert_answer u.alert n)) }
{
    let answer = answerable(seen, u, n);
    Sending {
        outcome: alert_down(u, answer),
        stream: reads::reply::alert_stream(answer),
    }
}
