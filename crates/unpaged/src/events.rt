// The answers of what reaches the device beside read and write transactions.
ghost use Rattle.std.specs.Prelude.{◌≡◌, IfOk};
ghost use Rattle.answer.specs.Answer.{answer_of};
ghost use Rattle.cause.specs.Kinds.{quantity_number};
ghost use Rattle.unpaged.specs.Events.{measure_answer, alert_answer};

use answer::Refusal;
use cause::Quantity;

// A measurement of a quantity on a page, in a device with n pages: the quantity by name.
#[tactic(auto, unfolding(crate::specs::Events::measure_answer))]
pub fn measure_answer(n: u8, page: u8, quantity: u8) -> Result<Quantity, Refusal>
    ensures answer { answer_of result ≡ measure_answer n page quantity }
    ensures named { IfOk result (λ q. quantity_number q ≡ quantity) }
{
    if page >= n {
        return Err(Refusal::NoSuchPlace);
    }
    Quantity::try_from(quantity).map_err(|_| Refusal::NoSuchPlace)
}

// An alert response of n bytes.
#[tactic(auto, unfolding(crate::specs::Events::alert_answer))]
pub fn alert_answer(alert: bool, n: usize) -> Result<(), Refusal>
    ensures { answer_of result ≡ alert_answer alert n }
{
    if n != 1 {
        return Err(Refusal::Malformed);
    }
    if !alert {
        return Err(Refusal::AlertDown);
    }
    Ok(())
}
