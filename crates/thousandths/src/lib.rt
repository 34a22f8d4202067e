// Numbers for limits: the word whose value is nearest to a count of thousandths, and the thousandths of a word. Linear11 words and those of
// the output voltage (VOUT) each have their own pair of functions.
#![tactic(auto)]

ghost use Rattle.std.specs.Prelude.{◌≡◌};
ghost use Rattle.thousandths.specs.Conversion.{converted_of, conversion_of, thousandths_of};
ghost use Rattle.thousandths.specs.Vout.{vout_conversion_of, vout_thousandths_of};

use answer::Refusal;
use rows::Place;

mod rows; // rows.rt: the nearest word of each exponent, and of all

// The highest whole thousandth that VOUT words mean.
const VOUT_HIGHEST: i64 = 7999;

// The answer number, and the word under answer 0, side by side for C.
#[repr(C)]
#[derive(Clone, Copy)]
pub struct Converted {
    pub answer: u8,
    pub word: u16,
}

impl From<Result<u16, Refusal>> for Converted {
    ghost from_gives = { λ word converted. converted ≡ converted_of word };

    fn from(word: Result<u16, Refusal>) -> Converted {
        match word {
            Ok(word) => Converted {
                answer: answer::DONE,
                word,
            },
            Err(refusal) => Converted {
                answer: refusal.into(),
                word: 0,
            },
        }
    }
}

#[tactic(auto, unfolding(crate::specs::Conversion::conversion_of))]
fn linear11_word(count: i64) -> Result<u16, Refusal>
    ensures { converted_of result ≡ conversion_of count }
{
    let place = Place::try_from(count)?;
    Ok(place.nearest())
}

// The Linear11 word nearest to a count of thousandths.
pub fn from_thousandths(count: i64) -> Converted
    ensures { result ≡ conversion_of count }
{
    linear11_word(count).into()
}

// The thousandths of a Linear11 word, a half away from zero.
#[tactic(auto, using(crate::proofs::Sizes::scaled_size), unfolding(crate::specs::Conversion::thousandths_of))]
pub fn to_thousandths(word: u16) -> i64
    ensures { result ≡ thousandths_of word }
{
    let value = linear11::scaled(word);
    let size = ((1000 * value.unsigned_abs() + 32768) / 65536) as i64;
    if value < 0 { -size } else { size }
}

#[tactic(auto, unfolding(crate::specs::Vout::vout_conversion_of))]
fn vout_word(count: i64) -> Result<u16, Refusal>
    ensures { converted_of result ≡ vout_conversion_of count }
{
    if !(0..=VOUT_HIGHEST).contains(&count) {
        return Err(Refusal::OutOfRange);
    }
    let n = count as u64;
    Ok(((n * 8192 + 500) / 1000) as u16)
}

// The VOUT word nearest to a count of thousandths.
pub fn vout_from_thousandths(count: i64) -> Converted
    ensures { result ≡ vout_conversion_of count }
{
    vout_word(count).into()
}

// The thousandths of a VOUT word, a half up.
#[tactic(auto, unfolding(crate::specs::Vout::vout_thousandths_of))]
pub fn vout_to_thousandths(word: u16) -> i64
    ensures { result ≡ vout_thousandths_of word }
{
    ((u64::from(word) * 1000 + 4096) / 8192) as i64
}
