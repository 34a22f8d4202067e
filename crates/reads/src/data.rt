// The data of a readable command, and what is sent of it: the data, then the packet check over header and data.
ghost use Rattle.std.specs.Prelude.{◌≡◌, ◌<◌, length};
ghost use Rattle.pec.specs.Pec.{pec};
ghost use Rattle.reads.specs.Coefficients.{format_of, coefficient_bytes};
ghost use Rattle.reads.specs.Data.{word_bytes, read_data, request_data, covered, checked, read_stream};

use super::answers::answers_data;
use super::reply::Stream;
use super::request::Request;
use command::Command;
use command::meaning::CML_REGISTER;
use page::Page;
use unpaged::Unpaged;
use value::format::Format;

// The data of CAPABILITY: packet checks, 400 kHz and SMBALERT#.
const CAPABILITY_DATA: u8 = 0xB0;

// The data of VOUT_MODE: linear, with the exponent -13.
const VOUT_MODE_DATA: u8 = 0x13;

// The data of PMBUS_REVISION: 1.2.
const REVISION_DATA: u8 = 0x22;

// The bytes that follow the count in what COEFFICIENTS sends.
const COUNT: u8 = 5;

// How many limits, causes and registers a page has. A command has the number of one, and what it reads is promised for every number.
const LIMITS: u8 = 11;

const CAUSES: u8 = 6;

const REGISTERS: u8 = 4;

// A word, low byte first.
fn word(word: u16) -> Stream
    ensures { result ≡ word_bytes word }
{
    Stream::new(&word.to_le_bytes())
}

// The data of a readable command.
#[tactic(auto, unfolding(crate::specs::Data::read_data, crate::specs::Data::status_register))]
pub fn read_data(u: Unpaged, p: Page, command: Command) -> Stream
    ensures { result ≡ read_data u p command }
{
    match command {
        Command::SelectPage => Stream::new(&[u.page]),
        Command::Operation => Stream::new(&[p.operation]),
        Command::WriteProtect => Stream::new(&[u.protect]),
        Command::Capability => Stream::new(&[CAPABILITY_DATA]),
        Command::VoutMode => Stream::new(&[VOUT_MODE_DATA]),
        Command::VoutCommand => word(p.command),
        Command::Limit(limit) => word(p.limits[usize::from(limit % LIMITS)]),
        Command::Response(cause) => Stream::new(&[p.responses[usize::from(cause % CAUSES)]]),
        Command::StatusByte => Stream::new(&[page::status::status_byte(p, u.cml)]),
        Command::StatusWord => Stream::new(&page::status::status_word(p, u.cml)),
        Command::Status(CML_REGISTER) => Stream::new(&[u.cml]),
        Command::Status(register) => Stream::new(&[p.status[usize::from(register % REGISTERS)]]),
        Command::ReadEin => Stream::new(&account::ein_bytes(u.energy)),
        Command::Reading(quantity) => word(page::status::reading(p, quantity)),
        Command::Revision => Stream::new(&[REVISION_DATA]),
        Command::ClearFaults | Command::Absent | Command::Coefficients => Stream::new(&[]),
    }
}

// A count, and the coefficients of a format.
#[tactic(auto, unfolding(crate::specs::Coefficients::coefficient_bytes))]
fn coefficients(format: Format) -> Stream
    ensures { result ≡ coefficient_bytes format }
{
    let [m_low, m_high] = format.m.to_le_bytes();
    let [b_low, b_high] = format.b.to_le_bytes();
    Stream::new(&[COUNT, m_low, m_high, b_low, b_high, format.r])
}

// The format of a code's value on a page.
fn format_of(p: Page, code: u8) -> Format
    ensures { result ≡ format_of p code }
{
    page::formats::format_of(p.formats, command::quantity::quantity_of(code))
}

// The data of what is asked for.
#[tactic(auto, unfolding(crate::specs::Data::request_data))]
fn request_data(u: Unpaged, p: Page, request: Result<Request, u8>) -> Stream
    ensures { result ≡ request_data u p request }
{
    match request {
        Ok(Request::Plain(code, _)) => read_data(u, p, command::command_of(code)),
        Ok(Request::Coefficients(code, _)) => coefficients(format_of(p, code)),
        Err(_) => Stream::new(&[]),
    }
}

// The packet check over the header as it came.
fn header_check(header: &[u8]) -> u8
    ensures { result ≡ pec (covered header.now) }
{
    pec::pec(header)
}

// The data followed by the packet check over the header and the data.
#[tactic(auto, unfolding(crate::specs::Data::checked))]
fn with_check(header: &[u8], body: Stream) -> Stream
    requires { length body < 8 }
    ensures { result ≡ checked header.now body }
{
    let check = pec::pec_from(header_check(header), body.as_slice());
    let mut stream = body;
    stream.push(check);
    stream
}

// What an answer sends: data and packet check, or nothing. The answer comes as its number, of which docs/PROMISES.md (2.6, 11.3) promises every
// one.
#[tactic(auto, unfolding(crate::specs::Data::read_stream))]
pub fn read_stream(
    u: Unpaged,
    p: Page,
    answer: u8,
    request: Result<Request, u8>,
    header: &[u8],
) -> Stream
    ensures { result ≡ read_stream u p answer request header.now }
{
    if !answers_data(answer) {
        return Stream::new(&[]);
    }
    with_check(header, request_data(u, p, request))
}
