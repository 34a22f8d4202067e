// The answer of a write, from its bytes, the unpaged part and the number of pages n: 1 and 2, then 3, then 5, 6 and 7 for
// its form, then 8 and 9 for its data. n and u stay apart, as docs/PROMISES.md has `write_answer` (2.1 and on).
ghost use Rattle.std.specs.Prelude.{◌≡◌, ℕ, get_or, IfOk};
ghost use Rattle.answer.specs.Answer.{answer_of};
ghost use Rattle.unpaged.specs.declared.Unpaged.{Unpaged as UnpagedRecord};
ghost use Rattle.writes.specs.Asked.{asked};
ghost use Rattle.writes.specs.Answers.{check_right, permitted, by_form, data_answer, write_answer};

use super::asked;
use super::asked::Write;
use super::bytes::{WRITE_ADDRESS, byte_at};
use answer::Refusal;
use command::codes::*;
use unpaged::{PROTECT_LIMITS, PROTECT_NOTHING, PROTECT_VOLTAGE, Unpaged};

// The last byte is the packet check of all bytes before it.
#[tactic(auto, unfolding(crate::specs::Answers::check_right))]
fn check_right(s: &[u8]) -> bool
    ensures { result ≡ check_right s.now }
{
    match s {
        [] => true,
        [covered @ .., check] => pec::pec(covered) == *check,
    }
}

// WRITE_PROTECT permits a write of this code.
#[tactic(auto, unfolding(crate::specs::Answers::permitted))]
pub fn permitted(protect: u8, code: u8) -> bool
    ensures { result ≡ permitted protect code }
{
    let always = matches!(
        code,
        WRITE_PROTECT | CLEAR_FAULTS | STATUS_VOUT..=STATUS_CML
    );
    let operate = matches!(code, OPERATION | PAGE);
    match protect {
        PROTECT_NOTHING => true,
        PROTECT_LIMITS => always || operate || code == VOUT_COMMAND,
        PROTECT_VOLTAGE => always || operate,
        _ => always,
    }
}

// A well formed write: 8 where it is protected, 9 where its data are invalid.
#[tactic(auto, unfolding(crate::specs::Answers::data_answer))]
fn check_data(n: u8, u: Unpaged, code: u8, write: Write) -> Result<(), Refusal>
    ensures { answer_of result ≡ data_answer n u code write }
{
    if !permitted(u.protect, code) {
        return Err(Refusal::Protected);
    }
    if !asked::valid_write(n, write) {
        return Err(Refusal::InvalidData);
    }
    Ok(())
}

// The form of a write, from its bytes alone: address, a code that is written, its data, and perhaps the right packet check.
#[tactic(auto, unfolding(crate::specs::Answers::write_answer, crate::specs::Answers::addressed_answer, crate::specs::Answers::code_answer, crate::specs::Answers::length_answer))]
fn check_form(s: &[u8]) -> Result<(), Refusal>
    ensures { (n : ℕ) (u : UnpagedRecord) → by_form (answer_of result) (data_answer n u (get_or s.now 1 0) (asked s.now)) ≡ write_answer n u s.now }
{
    let (code, given) = match s {
        [] | [WRITE_ADDRESS] => return Err(Refusal::Malformed),
        [WRITE_ADDRESS, code, data @ ..] => (*code, data.len()),
        _ => return Err(Refusal::WrongAddress),
    };
    let due = match command::lookup(code) {
        Some(entry) if entry.written => entry.length as usize,
        _ => return Err(Refusal::UnsupportedCommand),
    };
    if given < due {
        return Err(Refusal::TooFewData);
    }
    if given > due + 1 {
        return Err(Refusal::TooManyData);
    }
    if given > due && !check_right(s) {
        return Err(Refusal::WrongPec);
    }
    Ok(())
}

// What a write asks for, if it is accepted. That is told once, and only where the form is right.
pub fn judge(n: u8, u: Unpaged, s: &[u8]) -> Result<Write, Refusal>
    ensures answer { answer_of result ≡ write_answer n u s.now }
    ensures write { IfOk result (λ write. write ≡ asked s.now) }
{
    check_form(s)?;
    let write = asked::asked(s);
    check_data(n, u, byte_at(s, 1), write)?;
    Ok(write)
}

pub fn write_answer(n: u8, u: Unpaged, s: &[u8]) -> Result<(), Refusal>
    ensures { answer_of result ≡ write_answer n u s.now }
{
    judge(n, u, s)?;
    Ok(())
}
