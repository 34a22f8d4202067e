// The test for answer 15, and how a call ends: for every kind of call.
ghost use Rattle.std.specs.Prelude.{◌≡◌, cond, Ok, IfOk};
ghost use Rattle.answer.specs.Answer.{number_of, answer_of};
ghost use Rattle.laws.specs.Lists.{all_of};
ghost use Rattle.page.specs.Settings.{page_valid};
ghost use Rattle.device.specs.Device.{device_valid};
ghost use Rattle.device.specs.Step.{refused_device};

use super::{Device, PAGES};
use answer::Refusal;
use page::Page;

fn all_valid(pages: &[Page]) -> bool
    ensures { result ≡ all_of page_valid pages.now }
{
    pages.iter().all(|&p| page::settings::page_valid(p))
}

// A state that no answer 15 goes to. It is looked at where it lies: one that came by value would be copied.
pub(crate) fn is_valid(d: &Device) -> bool
    ensures { result ≡ device_valid d.now }
{
    unpaged::unpaged_valid(PAGES, d.unpaged) && all_valid(&d.pages)
}

// The same of a state by value.
pub fn device_valid(d: Device) -> bool
    ensures { result ≡ device_valid d }
{
    is_valid(&d)
}

// The answer of a call, which is 15 whatever it is where the state is not valid. It takes every number: docs/ARCHITECTURE.md names it.
pub fn answered(valid: bool, answer: u8) -> u8
    ensures { result ≡ cond valid answer 15 }
{
    if valid {
        answer
    } else {
        Refusal::InvalidState.into()
    }
}

// The same of what a call's rule gives.
pub fn checked<T: Copy>(valid: bool, rule: Result<T, Refusal>) -> Result<T, Refusal>
    ensures answer { answer_of result ≡ cond valid (answer_of rule) 15 }
    ensures given { IfOk result (λ x. rule ≡ Ok x) }
{
    if valid {
        rule
    } else {
        Err(Refusal::InvalidState)
    }
}

// The number of the answer of a call that gives this.
pub(crate) fn number<T: Copy>(answer: Result<T, Refusal>) -> u8
    ensures { result ≡ answer_of answer }
{
    match answer {
        Ok(_) => answer::DONE,
        Err(refusal) => refusal.into(),
    }
}

// A refusal leaves the pages, and of the unpaged part all but a bit of STATUS_CML and the alert.
#[tactic(auto, unfolding(crate::specs::Step::refused_device))]
pub fn refuse(d: &mut Device, refusal: Refusal)
    ensures { d.new ≡ refused_device d.old (number_of refusal) }
{
    d.unpaged = unpaged::after(d.unpaged, refusal);
}

// The same of the number of an answer, whatever number it is, and of a state by value. The calls change theirs where it lies.
#[tactic(auto, unfolding(crate::specs::Step::refused_device))]
pub fn refused(d: Device, answer: u8) -> Device
    ensures { result ≡ refused_device d answer }
{
    Device {
        unpaged: unpaged::refused(d.unpaged, answer),
        ..d
    }
}
