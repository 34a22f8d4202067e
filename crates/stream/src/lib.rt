// The streaming device's questions to the rules of whole transactions, by value: the reply at the second address byte, and at STOP
// what the transaction asks for or why it is refused. All else of a transaction is in crate bus.
#![tactic(auto)]

ghost use Rattle.std.specs.Prelude.{◌≡◌, IfOk};
ghost use Rattle.answer.specs.Answer.{answer_of};
ghost use Rattle.writes.specs.Asked.{asked};
ghost use Rattle.writes.specs.Answers.{write_answer};
ghost use Rattle.reads.specs.Answers.{read_answer};
ghost use Rattle.bus.specs.Part.{heard};
ghost use Rattle.stream.specs.Stream.{page_reply, eight_valid};

use answer::Refusal;
use bus::Part;
use page::Page;
use unpaged::Unpaged;
use writes::Write;

// What a call finds that comes to a valid state: eight pages, each of them valid.
pub fn eight_valid() -> Option<u8>
    ensures { result ≡ eight_valid }
{
    Some(8)
}

// The first eight bytes that a read with this header sends of the page p, FFh past their end.
pub fn reply(u: Unpaged, p: Page, header: &[u8]) -> [u8; 8]
    ensures { result ≡ page_reply u p header.now }
{
    let request = reads::request::request_of(header).map_err(u8::from);
    let answer = reads::answers::request_answer(u, p, request, 8);
    let stream = reads::data::read_stream(u, p, answer, request, header);
    let mut bytes = [0; 8];
    reads::reply::send(&mut bytes, stream.as_slice());
    bytes
}

// What a write that has ended asks for, if it is accepted; of a valid state.
pub fn judged(u: Unpaged, kept: Part) -> Result<Write, Refusal>
    ensures answer { answer_of result ≡ write_answer 8 u (heard kept) }
    ensures write { IfOk result (λ w. w ≡ asked (heard kept)) }
{
    writes::answers::judge(8, u, &kept.bytes[..bus::kept(kept)])
}

// The answer of a read that has ended, of a valid state that shows the page p.
pub fn read_answer(u: Unpaged, p: Page, kept: Part) -> Result<(), Refusal>
    ensures { answer_of result ≡ read_answer u p (heard kept) kept.clocked }
{
    let n = usize::from(kept.clocked);
    reads::answers::read_answer(u, p, &kept.bytes[..bus::kept(kept)], n)
}
