// Replies read into their fields.
ghost use Rattle.std.specs.Prelude.{◌≡◌, get_or, IfOk};
ghost use Rattle.answer.specs.Answer.{answer_of};
ghost use Rattle.command.specs.Table.{lookup};
ghost use Rattle.host.specs.Parse.{parse_answer, fields_of, parsed, reply_of};

use super::build;
use account::Account;
use answer::Refusal;
use command::codes;

// For C, side by side: 0 or what speaks against the reply; and what it says, a byte, a word or an account. The other fields are 0, under a
// refusal all.
#[repr(C)]
#[derive(Clone, Copy)]
pub struct Reply {
    pub answer: u8,
    pub byte: u8,
    pub word: u16,
    pub account: Account,
}

// Answer 0 and no field.
const EMPTY: Reply = Reply {
    answer: answer::DONE,
    byte: 0,
    word: 0,
    account: Account {
        accumulator: 0,
        rollover: 0,
        count: 0,
    },
};

// What a reply says.
#[derive(Clone, Copy)]
enum Fields {
    Byte(u8),
    Word(u16),
    Account(Account),
}

impl From<Result<Fields, Refusal>> for Reply {
    ghost from_gives = { λ fields reply. reply ≡ reply_of fields };

    fn from(fields: Result<Fields, Refusal>) -> Reply {
        match fields {
            Ok(Fields::Byte(byte)) => Reply { byte, ..EMPTY },
            Ok(Fields::Word(word)) => Reply { word, ..EMPTY },
            Ok(Fields::Account(account)) => Reply { account, ..EMPTY },
            Err(refusal) => Reply {
                answer: refusal.into(),
                ..EMPTY
            },
        }
    }
}

// The byte at a place, 0 past the end. (`account` has its own: one call of the library each.)
fn byte_at(s: &[u8], i: usize) -> u8
    ensures { result ≡ get_or s.now i 0 }
{
    s.get(i).copied().unwrap_or(0)
}

// The number of data bytes of a reply to a read of the code, clocked with or without the packet check.
#[tactic(auto, unfolding(crate::specs::Parse::parse_answer, crate::specs::Parse::is_account, crate::specs::Build::read_form))]
fn reply_length(code: u8, check: bool, s: &[u8]) -> Result<u8, Refusal>
    ensures answer { answer_of result ≡ parse_answer code check s.now }
    ensures length { IfOk result (λ n. n ≡ (lookup code).length) }
{
    let length = build::read_length(code)?;
    replies::reply_answer(code, length, check, code == codes::READ_EIN, s)?;
    Ok(length)
}

// What the data bytes of a reply say, by their number.
#[tactic(auto, unfolding(crate::specs::Parse::fields_of))]
fn fields_of(length: u8, s: &[u8]) -> Fields
    ensures { reply_of (Ok result) ≡ fields_of length s.now }
{
    match length {
        1 => Fields::Byte(byte_at(s, 0)),
        2 => Fields::Word(u16::from_le_bytes([byte_at(s, 0), byte_at(s, 1)])),
        _ => Fields::Account(account::account_from(s)),
    }
}

// A reply to a read of the code, clocked with or without the packet check.
#[tactic(auto, unfolding(crate::specs::Parse::parsed))]
pub fn parse(code: u8, check: bool, s: &[u8]) -> Reply
    ensures { result ≡ parsed code check s.now }
{
    reply_length(code, check, s)
        .map(|length| fields_of(length, s))
        .into()
}
