// The bytes that the device sends, and what stands in a reply buffer: those bytes, and FFh once they are over.
ghost use Rattle.std.specs.Prelude.{◌≡◌, ◌+◌, ◌<◌, ◌≤◌, [], ◌∷◌, ◌++◌, length};
ghost use Rattle.answer.specs.Answer.{answer_of};
ghost use Rattle.reads.specs.Reply.{reply_of, alert_stream};

use answer::Refusal;
use std::marker::Model;
use writes::bytes::WRITE_ADDRESS;

// What the host reads once nobody sends.
const IDLE: u8 = 0xFF;

// The bytes to send, eight at most. Contracts see the list of them; past them the buffer holds 0, so that the list gives the fields back.
#[derive(Clone, Copy)]
pub struct Stream {
    bytes: [u8; 8],
    length: u8,
}

impl Model for Stream {
    ghost use Rattle.std.specs.Prelude.{ℕ, List};

    ghost Value = { List ℕ };

    ghost use Rattle.reads.specs.Stream.{IsStream, stream, stream_of};

    ghost view = { stream_of };

    ghost invariant = { IsStream };

    ghost inverse = { stream };

    ghost inverse_ok = { λ s h. h.made };
}

impl Stream {
    pub(crate) fn new(bytes: &[u8]) -> Self
        requires { length bytes.now ≤ 8 }
        ensures { result ≡ bytes.now }
    {
        // No `copy_from_slice`, here and below: it calls memmove, and the archives call nothing but memcpy and memset
        // (include/tongsorrel.h).
        let mut buffer = [0; 8];
        for (i, &byte) in bytes.iter().enumerate() {
            buffer[i] = byte;
        }
        Stream {
            bytes: buffer,
            length: bytes.len() as u8,
        }
    }

    pub fn as_slice(&self) -> &[u8]
        ensures { result.now ≡ self.now }
    {
        &self.bytes[..self.length as usize]
    }

    // One byte more, behind the others.
    pub(crate) fn push(&mut self, byte: u8)
        requires { length self.old < 8 }
        ensures { self.new ≡ self.old ++ byte ∷ [] }
    {
        self.bytes[self.length as usize] = byte;
        self.length += 1;
    }
}

// Fills the whole buffer, byte by byte: for a copy and a fill LLVM calls memcpy and memset, which liblent.a does without.
pub fn send(reply: &mut [u8], bytes: &[u8])
    ensures { reply.new ≡ reply_of bytes.now (length reply.old) }
{
    for i in 0..reply.len() {
        reply[i] = bytes.get(i).copied().unwrap_or(IDLE);
    }
}

// What an alert response sends with this answer: the device's address, or nothing.
#[tactic(auto, unfolding(crate::specs::Reply::alert_stream))]
pub fn alert_stream(answer: Result<(), Refusal>) -> Stream
    ensures { result ≡ alert_stream (answer_of answer) }
{
    match answer {
        Ok(()) => Stream::new(&[WRITE_ADDRESS]),
        Err(_) => Stream::new(&[]),
    }
}
