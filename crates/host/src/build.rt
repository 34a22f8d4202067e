// Writes and reads, built into the caller's buffer from a given place on.
ghost use Rattle.std.specs.Prelude.{◌≡◌, true, false, ◌+◌, ◌≤◌, length, IfOk};
ghost use Rattle.answer.specs.Answer.{answer_of};
ghost use Rattle.command.specs.Table.{lookup};
ghost use Rattle.replies.specs.Replies.{read_header};
ghost use Rattle.host.specs.Build.{write_frame, write_form, read_form, place_answer, built_of, write_built, read_built, placed};

use answer::Refusal;
use std::cmp::Ordering;

// The bytes of a read's header.
const HEADER: usize = 3;

// 0 or why nothing was built; the number of bytes of the frame; and for a read the number of bytes to clock. Side by side for C.
#[repr(C)]
#[derive(Clone, Copy)]
pub struct Built {
    pub answer: u8,
    pub length: usize,
    pub count: usize,
}

// A frame that was built: its number of bytes, and for a read the number of bytes to clock.
#[derive(Clone, Copy)]
struct Frame {
    length: usize,
    count: usize,
}

impl From<Result<Frame, Refusal>> for Built {
    ghost from_gives = { λ frame built. built ≡ built_of frame };

    fn from(frame: Result<Frame, Refusal>) -> Built {
        match frame {
            Ok(Frame { length, count }) => Built {
                answer: answer::DONE,
                length,
                count,
            },
            Err(refusal) => Built {
                answer: refusal.into(),
                length: 0,
                count: 0,
            },
        }
    }
}

// The number of data bytes of a code that is written, where it is as many as the table gives.
#[tactic(auto, unfolding(crate::specs::Build::write_form, crate::specs::Build::number_answer))]
fn write_length(code: u8, count: usize) -> Result<u8, Refusal>
    ensures answer { answer_of result ≡ write_form code count }
    ensures length { IfOk result (λ n. n ≡ count) }
{
    let entry = match command::lookup(code) {
        Some(entry) if entry.written => entry,
        _ => return Err(Refusal::UnsupportedCommand),
    };
    match count.cmp(&usize::from(entry.length)) {
        Ordering::Less => Err(Refusal::TooFewData),
        Ordering::Greater => Err(Refusal::TooManyData),
        Ordering::Equal => Ok(entry.length),
    }
}

// The number of data bytes of a code that is read.
#[tactic(auto, unfolding(crate::specs::Build::read_form))]
pub(crate) fn read_length(code: u8) -> Result<u8, Refusal>
    ensures answer { answer_of result ≡ read_form code }
    ensures length { IfOk result (λ n. n ≡ (lookup code).length) }
{
    match command::lookup(code) {
        Some(entry) if entry.read => Ok(entry.length),
        _ => Err(Refusal::UnsupportedCommand),
    }
}

// Where n bytes from the place on end, if there is room for them. (After `get_mut` of the range no proof would know the bytes written.)
fn end_of(room: usize, place: usize, n: usize) -> Result<usize, Refusal>
    ensures answer { answer_of result ≡ place_answer room place n }
    ensures end { IfOk result (λ end. (end ≡ place + n) × (end ≤ room)) }
{
    match place.checked_add(n) {
        Some(end) if end <= room => Ok(end),
        _ => Err(Refusal::NoRoom),
    }
}

// Address, code, data and the packet check where one is asked for, over a part of the buffer as long as they are.
#[tactic(auto, unfolding(crate::specs::Build::write_frame))]
fn put_write(out: &mut [u8], code: u8, bytes: &[u8], check: bool)
    requires { length out.old ≡ length (write_frame code bytes.now check) }
    ensures { out.new ≡ write_frame code bytes.now check }
{
    let end = 2 + bytes.len();
    out[0] = replies::WRITE_ADDRESS;
    out[1] = code;
    // No `copy_from_slice`: the archives call nothing but memcpy and memset (include/tongsorrel.h), and that calls memmove.
    for (i, &byte) in bytes.iter().enumerate() {
        out[2 + i] = byte;
    }
    if check {
        out[end] = pec::pec(&out[..end]);
    }
}

// A write's frame in the buffer from the place on. Nothing is stored before the answer is known.
#[tactic(auto, using(crate::proofs::Frames::frame_length))]
fn place_write(
    buffer: &mut [u8],
    place: usize,
    code: u8,
    bytes: &[u8],
    check: bool,
) -> Result<Frame, Refusal>
    ensures value { built_of result ≡ write_built (length buffer.old) place code bytes.now check }
    ensures buffer_after { buffer.new ≡ placed (built_of result) buffer.old place (write_frame code bytes.now check) }
{
    let data = write_length(code, bytes.len())?;
    let length = 2 + replies::clocked_for(data, check);
    let end = end_of(buffer.len(), place, length)?;
    put_write(&mut buffer[place..end], code, bytes, check);
    Ok(Frame { length, count: 0 })
}

// A write of a code with its data, into the buffer from the place on.
pub fn write(buffer: &mut [u8], place: usize, code: u8, bytes: &[u8], check: bool) -> Built
    ensures value { result ≡ write_built (length buffer.old) place code bytes.now check }
    ensures buffer_after { buffer.new ≡ placed result buffer.old place (write_frame code bytes.now check) }
{
    place_write(buffer, place, code, bytes, check).into()
}

fn put_header(out: &mut [u8], code: u8)
    requires { length out.old ≡ 3 }
    ensures { out.new ≡ read_header code }
{
    out[0] = replies::WRITE_ADDRESS;
    out[1] = code;
    out[2] = replies::READ_ADDRESS;
}

// A read's header in the buffer from the place on, and the number of bytes to clock.
#[tactic(auto, unfolding(crate::specs::Build::read_count))]
fn place_read(buffer: &mut [u8], place: usize, code: u8, check: bool) -> Result<Frame, Refusal>
    ensures value { built_of result ≡ read_built (length buffer.old) place code check }
    ensures buffer_after { buffer.new ≡ placed (built_of result) buffer.old place (read_header code) }
{
    let length = read_length(code)?;
    let end = end_of(buffer.len(), place, HEADER)?;
    put_header(&mut buffer[place..end], code);
    Ok(Frame {
        length: HEADER,
        count: replies::clocked_for(length, check),
    })
}

// The header of a read of a code, into the buffer from the place on, and the number of bytes to clock.
pub fn read(buffer: &mut [u8], place: usize, code: u8, check: bool) -> Built
    ensures value { result ≡ read_built (length buffer.old) place code check }
    ensures buffer_after { buffer.new ≡ placed result buffer.old place (read_header code) }
{
    place_read(buffer, place, code, check).into()
}
