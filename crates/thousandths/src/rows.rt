// The Linear11 word nearest to a place. A row is the 2048 words of one exponent, row 0 that of -16. A place is a value times 65,536,000,
// moved up so that 7C00h lies at 0: all numbers here are whole and not negative.
ghost use Rattle.std.specs.Prelude.{◌≡◌, ◌*◌, ◌<◌, ◌≤◌};
ghost use Rattle.thousandths.specs.Conversion.{unit, start, spot, rounded, word_at, row_best, nearer, best};

use answer::Refusal;

// The ends of what words mean, in thousandths: 7C00h and 7BFFh.
const LOWEST: i64 = -33554432000;

const HIGHEST: i64 = 33521664000;

// How far up everything is moved, in thousandths and in places: the size of LOWEST.
const LIFT: i64 = 33554432000;

const MOVED_UP: u64 = 33554432000 * PLACES;

// The places in a thousandth.
const PLACES: u64 = 65536;

// Where a count lies.
#[derive(Clone, Copy)]
pub struct Place {
    pub value: u64,
    ghost in_range: { value < 4503599627370496 },
}

// The words of one exponent, by its number.
#[derive(Clone, Copy)]
struct Row {
    number: u64,
    ghost in_range: { number < 32 },
}

// A word, and how far its value is from the place.
#[derive(Clone, Copy)]
pub struct Found {
    pub word: u16,
    pub gap: u64,
}

impl Row {
    // The step between neighbours.
    fn unit(self) -> u64
        ensures value { result ≡ unit self.number }
        ensures some { 0 < result }
        ensures small { 1024 * result ≤ 2199023255552000 }
    {
        1000 * (1 << self.number)
    }

    // Where the row begins, with the mantissa -1024.
    #[tactic(auto, unfolding(crate::specs::Conversion::start))]
    fn start(self) -> u64
        ensures value { result ≡ start self.number }
        ensures small { result ≤ 2199023255552000 }
    {
        MOVED_UP - 1024 * self.unit()
    }

    // Where the word lies whose mantissa is y - 1024.
    #[tactic(auto, unfolding(crate::specs::Conversion::spot))]
    fn spot(self, y: u64) -> u64
        requires { y < 2048 }
        ensures { result ≡ spot self.number y }
    {
        self.unit() * y + self.start()
    }

    // The word with the mantissa y - 1024.
    fn word_at(self, y: u64) -> u16
        requires { y < 2048 }
        ensures { result ≡ word_at self.number y }
    {
        ((self.number + 16) % 32 * 2048 + (y + 1024) % 2048) as u16
    }

    // The y of the word nearest to the place: rounded, a half down, and kept within the row.
    // To divide by 1000 and to shift is quicker than to divide by twice the unit.
    #[tactic(auto, using(crate::proofs::Rounding::quotient), unfolding(crate::specs::Conversion::rounded))]
    fn rounded(self, place: Place) -> u64
        ensures value { result ≡ rounded place.value self.number }
        ensures in_row { result < 2048 }
    {
        let start = self.start();
        if place.value <= start {
            return 0;
        }
        let y = (((place.value - start) * 2 + self.unit() - 1) / 1000) >> (self.number + 1);
        y.min(2047)
    }

    // The word nearest to the place.
    #[tactic(auto, unfolding(crate::specs::Conversion::row_best))]
    fn nearest(self, place: Place) -> Found
        ensures { result ≡ row_best place.value self.number }
    {
        let y = self.rounded(place);
        Found {
            word: self.word_at(y),
            gap: place.value.abs_diff(self.spot(y)),
        }
    }
}

// Of two words the second only where it is strictly nearer. (`min_by_key` over all rows would hide which of two equals it takes.)
#[tactic(auto, unfolding(crate::specs::Conversion::nearer))]
fn nearer(a: Found, b: Found) -> Found
    ensures { result ≡ nearer a b }
{
    if b.gap < a.gap { b } else { a }
}

// Where a count of thousandths lies, if a word stands for it.
impl TryFrom<i64> for Place {
    type Error = Refusal;

    ghost use Rattle.thousandths.specs.Place.{FindsPlace};

    ghost try_from_gives = { FindsPlace };

    #[tactic(auto, unfolding(crate::specs::Conversion::target))]
    fn try_from(count: i64) -> Result<Place, Refusal> {
        if !(LOWEST..=HIGHEST).contains(&count) {
            return Err(Refusal::OutOfRange);
        }
        let lifted = (count + LIFT) as u64;
        Ok(Place {
            value: lifted * PLACES,
        })
    }
}

impl Place {
    // The nearest word of all rows.
    #[tactic(auto, unfolding(crate::specs::Conversion::best))]
    pub fn nearest(self) -> u16
        ensures { result ≡ (best self.value 31).word }
    {
        let mut found = Row { number: 0 }.nearest(self);
        for number in 1..32 {
            found = nearer(found, Row { number }.nearest(self));
        }
        found.word
    }
}
