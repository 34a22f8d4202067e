// What a value is in a buffer: it is read from a place and stored at one, and the place then moves behind it. A byte, a word, a number of
// four bytes, a mark, and an array of values.
ghost use Rattle.std.specs.Prelude.{◌≡◌, ℕ, ◌+◌, ◌*◌, ◌≤◌, Bool, length};
ghost use Rattle.laws.specs.Lists.{all_of};
ghost use Rattle.layout.specs.Form.{Form, octet, word, mark, array, get_all, store_all};
ghost use Rattle.layout.specs.Layout.{long};

pub trait Stored: Copy {
    ghost form: { Form Self };

    fn load(s: &[u8], at: &mut usize) -> Self
        requires { at.old + form.width ≤ length s.now }
        ensures value { result ≡ form.get s.now at.old }
        ensures place { at.new ≡ at.old + form.width };

    fn store(self, s: &mut [u8], at: &mut usize)
        requires { at.old + form.width ≤ length s.old }
        ensures value { s.new ≡ form.store s.old at.old self }
        ensures place { at.new ≡ at.old + form.width };
}

// A value that an array may hold; BLANK stands there until the bytes are read. No `Default`: `value::format::Format` has none.
pub trait Element: Stored {
    const BLANK: Self;
}

// A value of which not every one is valid, in WIDE bytes.
pub trait Checked: Stored {
    ghost is_valid: { Self → Bool };

    ghost WIDE: { ℕ };

    const WIDE: usize;

    // Whether the value there is valid, from those of its bytes alone that the test is about.
    fn valid_at(s: &[u8], at: usize) -> bool
        requires { at + WIDE ≤ length s.now }
        ensures { result ≡ is_valid (Self.form.get s.now at) };

    ghost wide: { Self.form.width ≡ WIDE };
}

#[tactic(auto, unfolding(crate::specs::Form::store_byte))]
impl Stored for u8 {
    ghost form = { octet };

    #[inline(always)]
    fn load(s: &[u8], at: &mut usize) -> u8 {
        let x = s[*at];
        *at += 1;
        x
    }

    #[inline(always)]
    fn store(self, s: &mut [u8], at: &mut usize) {
        s[*at] = self;
        *at += 1;
    }
}

impl Element for u8 {
    const BLANK: u8 = 0;
}

// Low byte first.
#[tactic(auto, unfolding(crate::specs::Form::store_byte, crate::specs::Form::store_word))]
impl Stored for u16 {
    ghost form = { word };

    #[inline(always)]
    fn load(s: &[u8], at: &mut usize) -> u16 {
        let low = u8::load(s, at);
        let high = u8::load(s, at);
        u16::from_le_bytes([low, high])
    }

    #[inline(always)]
    fn store(self, s: &mut [u8], at: &mut usize) {
        let [low, high] = self.to_le_bytes();
        low.store(s, at);
        high.store(s, at);
    }
}

impl Element for u16 {
    const BLANK: u16 = 0;
}

// Low word first.
impl Stored for u32 {
    ghost form = { long };

    #[inline(always)]
    fn load(s: &[u8], at: &mut usize) -> u32 {
        let low = u16::load(s, at);
        let high = u16::load(s, at);
        u32::from(low) + u32::from(high) * 0x1_0000
    }

    #[inline(always)]
    fn store(self, s: &mut [u8], at: &mut usize) {
        let low = (self % 0x1_0000) as u16;
        let high = (self / 0x1_0000) as u16;
        low.store(s, at);
        high.store(s, at);
    }
}

// One byte, 0 or 1; any other byte reads as true.
#[tactic(auto, unfolding(crate::specs::Form::store_byte, crate::specs::Form::store_mark))]
impl Stored for bool {
    ghost form = { mark };

    #[inline(always)]
    fn load(s: &[u8], at: &mut usize) -> bool {
        u8::load(s, at) != 0
    }

    #[inline(always)]
    fn store(self, s: &mut [u8], at: &mut usize) {
        u8::from(self).store(s, at);
    }
}

impl Element for bool {
    const BLANK: bool = false;
}

// One element behind the other.
impl<T: Element, const N: usize> Stored for [T; N] {
    ghost form = { array N T.form };

    fn load(s: &[u8], at: &mut usize) -> [T; N] {
        let mut all = [T::BLANK; N];
        for x in all.iter_mut() {
            *x = T::load(s, at);
        }
        all
    }

    #[inline(always)]
    fn store(self, s: &mut [u8], at: &mut usize) {
        store_each(s, at, &self);
    }
}

// The values of a slice of any length, one behind the other.
#[inline(always)]
pub fn store_each<T: Stored>(s: &mut [u8], at: &mut usize, all: &[T])
    requires { at.old + length all.now * T.form.width ≤ length s.old }
    ensures value { s.new ≡ store_all T.form s.old at.old all.now }
    ensures place { at.new ≡ at.old + length all.now * T.form.width }
{
    for &x in all {
        x.store(s, at);
    }
}

// Each of the N values there is valid. The first that is not ends the test.
pub fn all_valid<T: Checked, const N: usize>(s: &[u8], at: usize) -> bool
    requires { at + N * T.WIDE ≤ length s.now }
    ensures { result ≡ all_of T.is_valid (get_all T.form N s.now at) }
{
    for i in 0..N {
        if !T::valid_at(s, at + T::WIDE * i) {
            return false;
        }
    }
    true
}
