// The bytes of a line as a call of the device, by the first byte and the number of bytes.
ghost use Rattle.std.specs.Prelude.{◌≡◌, ◌<◌, length};
ghost use Rattle.frame.specs.Frame.{frame_of, outcome};
ghost use Rattle.frame.specs.Line.{result as result_of, Told};

use super::{LineDone, text};
use device::{Device, Done};

// The kinds of call: the first byte of a frame.
const WRITE: u8 = 0x01;

const READ: u8 = 0x02;

const MEASURE: u8 = 0x03;

const SAMPLE: u8 = 0x04;

const ALERT_RESPONSE: u8 = 0x05;

const TICK: u8 = 0x07;

// What stands in place of an answer where the bytes are no frame.
const NO_FRAME: u8 = 0xFF;

// A frame asks for a reply by a byte.
const LONGEST_REPLY: usize = 255;

// What a call left, and its reply, as text.
fn told(done: Done, reply: &[u8], out: &mut [u8]) -> LineDone
    requires { length reply.now < 256 }
    ensures { Told (result_of done reply.now) out.old result out.new }
{
    let length = text::put_answer(out, done.answer, reply);
    LineDone {
        device: done.device,
        length,
    }
}

// Runs the bytes of a line. Bytes that are no frame change nothing.
pub fn run_frame(d: Device, frame: &[u8], out: &mut [u8]) -> LineDone
    ensures { Told (outcome d (frame_of frame.now)) out.old result out.new }
{
    let mut buffer = [0; LONGEST_REPLY];
    match frame {
        [WRITE, bytes @ ..] => told(device::write(d, bytes), &[], out),
        [READ, n, header @ ..] => {
            let reply = &mut buffer[..usize::from(*n)];
            let done = device::read(d, header, reply);
            told(done, reply, out)
        }
        [MEASURE, page, quantity, low, high] => {
            let word = u16::from_le_bytes([*low, *high]);
            told(device::measure(d, *page, *quantity, word), &[], out)
        }
        [SAMPLE, low, high] => {
            let power = u16::from_le_bytes([*low, *high]);
            told(device::sample(d, power), &[], out)
        }
        [ALERT_RESPONSE, n] => {
            let reply = &mut buffer[..usize::from(*n)];
            let done = device::alert_response(d, reply);
            told(done, reply, out)
        }
        [TICK] => told(device::tick(d), &[], out),
        _ => {
            let done = Done {
                device: d,
                answer: NO_FRAME,
            };
            told(done, &[], out)
        }
    }
}
