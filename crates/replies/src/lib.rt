// What a host holds against a reply by itself: its length, its packet check, and of an account the count byte and the accumulator.
// It knows nothing of the device that sent the reply.
#![tactic(auto)]

ghost use Rattle.std.specs.Prelude.{◌≡◌, ◌+◌, ◌≤◌, eqb, length, get_or};
ghost use Rattle.answer.specs.Answer.{answer_of};
ghost use Rattle.replies.specs.Replies.{clocked_for, reply_check, account_answer, reply_answer};

use account::{ACCUMULATOR_END, COUNT_BYTE};
use answer::Refusal;

// The device's address byte when the host writes, and when it reads (data sheet 2.1).
pub const WRITE_ADDRESS: u8 = 0xC0;

pub const READ_ADDRESS: u8 = 0xC1;

// The bytes to clock for k data bytes, with or without the packet check.
#[tactic(auto, unfolding(crate::specs::Replies::clocked_for))]
pub fn clocked_for(k: u8, check: bool) -> usize
    ensures { (result ≡ clocked_for k check) × (result ≤ 256) }
{
    usize::from(k) + usize::from(check)
}

// Whether the byte behind the k data bytes of a reply is the packet check of the header and the data.
#[tactic(auto, unfolding(crate::specs::Replies::reply_check, pec::specs::Pec::pec, pec::specs::Pec::pec_from))]
fn right_check(code: u8, k: u8, reply: &[u8]) -> bool
    requires { length reply.now ≡ k + 1 }
    ensures { result ≡ eqb (reply_check code k reply.now) (get_or reply.now k 0) }
{
    let n = usize::from(k);
    let header = pec::pec_byte(
        pec::pec_byte(pec::pec_byte(0, WRITE_ADDRESS), code),
        READ_ADDRESS,
    );
    pec::pec_from(header, &reply[..n]) == reply[n]
}

// An account's own tests: the count byte, and an accumulator of 15 bits.
#[tactic(auto, unfolding(crate::specs::Replies::account_answer))]
fn account_answer(reply: &[u8]) -> Result<(), Refusal>
    ensures { answer_of result ≡ account_answer reply.now }
{
    if reply.first() != Some(&COUNT_BYTE) {
        return Err(Refusal::WrongCountByte);
    }
    if account::account_from(reply).accumulator >= ACCUMULATOR_END {
        return Err(Refusal::AccumulatorTooLarge);
    }
    Ok(())
}

// What speaks against a reply to a read of the code, which has k data bytes and is an account or not.
#[tactic(auto, unfolding(crate::specs::Replies::reply_answer, crate::specs::Replies::check_holds, crate::specs::Replies::clocked_for))]
pub fn reply_answer(code: u8, k: u8, check: bool, energy: bool, reply: &[u8]) -> Result<(), Refusal>
    ensures { answer_of result ≡ reply_answer code k check energy reply.now }
{
    if reply.len() != clocked_for(k, check) {
        return Err(Refusal::WrongReplyLength);
    }
    if check && !right_check(code, k, reply) {
        return Err(Refusal::WrongReplyPec);
    }
    if energy {
        return account_answer(reply);
    }
    Ok(())
}
