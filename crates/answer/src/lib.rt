// Why a call is refused, and the answer numbers (data sheet 11.2 to 11.5).
#![tactic(auto)]

ghost use Rattle.std.specs.Prelude.{◌≡◌};
ghost use Rattle.answer.specs.Answer.{number_of, answer_of, NamesRefusal};

// The number of an answer that is no refusal.
pub const DONE: u8 = 0;

#[derive(Clone, Copy, PartialEq, Eq)]
pub enum Refusal {
    // Transactions: the first byte is not the device's write address; no code, or a header of another form.
    WrongAddress = 1,
    Malformed = 2,
    // The code is absent, or not written, or not read.
    UnsupportedCommand = 3,
    // Writes.
    TooFewData = 5,
    TooManyData = 6,
    WrongPec = 7,
    Protected = 8,
    InvalidData = 9,
    // Reads: fewer bytes clocked than the data, or more than data and PEC.
    ReadTooShort = 10,
    ReadTooLong = 11,
    // Measurement, power sample, alert response. There is no such page, or no such quantity.
    NoSuchPlace = 12,
    SampleTooLarge = 13,
    AlertDown = 14,
    // The state handed in holds a value that gets 15: data sheet 12.2 has the list of fields and values.
    InvalidState = 15,
    // The totalizer.
    WrongReplyLength = 20,
    WrongReplyPec = 21,
    WrongCountByte = 22,
    AccumulatorTooLarge = 23,
    TotalFull = 24,
    // The host's conversions: no word stands for such a number.
    OutOfRange = 25,
    // The host's transactions: the frame does not fit behind the place.
    NoRoom = 26,
    // Power-on by a choice, and the comparison of two values: coefficients of a DIRECT format that are not valid, or another number of choices
    // than records.
    InvalidFormat = 27,
}

impl From<Refusal> for u8 {
    ghost from_gives = { λ refusal number. number ≡ number_of refusal };

    fn from(refusal: Refusal) -> u8 {
        refusal as u8
    }
}

// A number that no refusal has.
#[derive(Clone, Copy, PartialEq, Eq)]
pub struct UnknownRefusal(pub u8);

impl TryFrom<u8> for Refusal {
    type Error = UnknownRefusal;

    ghost try_from_gives = { NamesRefusal };

    fn try_from(number: u8) -> Result<Self, UnknownRefusal> {
        match number {
            1 => Ok(Refusal::WrongAddress),
            2 => Ok(Refusal::Malformed),
            3 => Ok(Refusal::UnsupportedCommand),
            5 => Ok(Refusal::TooFewData),
            6 => Ok(Refusal::TooManyData),
            7 => Ok(Refusal::WrongPec),
            8 => Ok(Refusal::Protected),
            9 => Ok(Refusal::InvalidData),
            10 => Ok(Refusal::ReadTooShort),
            11 => Ok(Refusal::ReadTooLong),
            12 => Ok(Refusal::NoSuchPlace),
            13 => Ok(Refusal::SampleTooLarge),
            14 => Ok(Refusal::AlertDown),
            15 => Ok(Refusal::InvalidState),
            20 => Ok(Refusal::WrongReplyLength),
            21 => Ok(Refusal::WrongReplyPec),
            22 => Ok(Refusal::WrongCountByte),
            23 => Ok(Refusal::AccumulatorTooLarge),
            24 => Ok(Refusal::TotalFull),
            25 => Ok(Refusal::OutOfRange),
            26 => Ok(Refusal::NoRoom),
            27 => Ok(Refusal::InvalidFormat),
            _ => Err(UnknownRefusal(number)),
        }
    }
}

// The number of an answer.
pub fn number(answer: Result<(), Refusal>) -> u8
    ensures { result ≡ answer_of answer }
{
    match answer {
        Ok(()) => DONE,
        Err(refusal) => refusal.into(),
    }
}
