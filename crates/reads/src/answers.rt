// The answer of a read, from the unpaged part, the page shown, what is asked for and the number of bytes clocked. They stay
// apart, as docs/PROMISES.md has `read_answer` (2.1 and on).
ghost use Rattle.std.specs.Prelude.{◌≡◌, Ok};
ghost use Rattle.answer.specs.Answer.{answer_of};
ghost use Rattle.reads.specs.Answers.{data_answer, request_answer, read_answer, answers_data};

use super::coefficients::has_coefficients;
use super::request;
use super::request::Request;
use answer::{DONE, Refusal};
use command::paged::is_paged;
use page::Page;
use unpaged::{EVERY_PAGE, Unpaged};

// The numbers of the refusals that come with data.
const TOO_SHORT: u8 = Refusal::ReadTooShort as u8;

const TOO_LONG: u8 = Refusal::ReadTooLong as u8;

// The data bytes of COEFFICIENTS.
const COEFFICIENT_BYTES: u8 = 6;

// A request with `due` data bytes, where n are clocked.
#[tactic(auto, unfolding(crate::specs::Answers::data_answer))]
fn check_length(refused: bool, due: u8, n: usize) -> Result<(), Refusal>
    ensures { answer_of result ≡ data_answer refused due n }
{
    let due = due as usize;
    if refused {
        return Err(Refusal::InvalidData);
    }
    if n < due {
        return Err(Refusal::ReadTooShort);
    }
    if n > due + 1 {
        return Err(Refusal::ReadTooLong);
    }
    Ok(())
}

// The answer to a request, on the page shown, with n bytes clocked. Where every page is selected, no page is read, and there are no
// coefficients.
#[tactic(auto, unfolding(crate::specs::Answers::request_answer))]
fn check_request(u: Unpaged, p: Page, request: Request, n: usize) -> Result<(), Refusal>
    ensures { answer_of result ≡ request_answer u p (Ok request) n }
{
    let everywhere = u.page == EVERY_PAGE;
    match request {
        Request::Plain(code, due) => check_length(everywhere && is_paged(code), due, n),
        Request::Coefficients(code, direction) => {
            let none = everywhere || !has_coefficients(p, code, direction);
            check_length(none, COEFFICIENT_BYTES, n)
        }
    }
}

// The number of that answer, or that which the request has: docs/PROMISES.md (20.8) promises it for every number.
#[tactic(auto, unfolding(crate::specs::Answers::request_answer))]
pub fn request_answer(u: Unpaged, p: Page, request: Result<Request, u8>, n: usize) -> u8
    ensures { result ≡ request_answer u p request n }
{
    match request {
        Ok(asked) => answer::number(check_request(u, p, asked, n)),
        Err(answer) => answer,
    }
}

// The answer of a read with this header.
#[tactic(auto, unfolding(crate::specs::Answers::read_answer, crate::specs::Answers::request_answer))]
pub fn read_answer(u: Unpaged, p: Page, header: &[u8], n: usize) -> Result<(), Refusal>
    ensures { answer_of result ≡ read_answer u p header.now n }
{
    check_request(u, p, request::request_of(header)?, n)
}

// Whether the answer of this number comes with data: done, too short and too long do.
#[tactic(auto, unfolding(crate::specs::Answers::answers_data))]
pub fn answers_data(answer: u8) -> bool
    ensures { result ≡ answers_data answer }
{
    matches!(answer, DONE | TOO_SHORT | TOO_LONG)
}
