// The format of a quantity at a place of a buffer: a mark, m, b and R; and the three of a page.
ghost use Rattle.std.specs.Prelude.{refl};
ghost use Rattle.value.specs.Format.{format_valid};
ghost use Rattle.page.specs.Settings.{formats_valid};
ghost use Rattle.layout.specs.Layout.{format_form};

use super::stored::{Checked, Element, Stored};
use value::format::Format;

#[tactic(auto, unfolding(crate::specs::Layout::format_form))]
impl Stored for Format {
    ghost form = { format_form };

    #[inline(always)]
    fn load(s: &[u8], at: &mut usize) -> Format {
        Format {
            direct: bool::load(s, at),
            m: u16::load(s, at),
            b: u16::load(s, at),
            r: u8::load(s, at),
        }
    }

    #[inline(always)]
    fn store(self, s: &mut [u8], at: &mut usize) {
        self.direct.store(s, at);
        self.m.store(s, at);
        self.b.store(s, at);
        self.r.store(s, at);
    }
}

impl Element for Format {
    const BLANK: Format = Format {
        direct: false,
        m: 0,
        b: 0,
        r: 0,
    };
}

#[tactic(auto, unfolding(crate::specs::Layout::format_form, value::specs::Format::format_valid))]
impl Checked for Format {
    ghost is_valid = { format_valid };

    ghost WIDE = { 6 };

    const WIDE: usize = 6;

    // Of a linear one the coefficients are not looked at.
    #[inline(always)]
    fn valid_at(s: &[u8], mut at: usize) -> bool {
        s[at] == 0 || value::format::format_valid(Format::load(s, &mut at))
    }

    ghost wide = { unfold format_form in refl };
}

// The formats of IOUT, VIN and temperature are valid: the first that is not ends the test.
#[tactic(auto, unfolding(crate::specs::Layout::format_form, page::specs::Settings::formats_valid))]
impl Checked for [Format; 3] {
    ghost is_valid = { formats_valid };

    ghost WIDE = { 18 };

    const WIDE: usize = 18;

    #[inline(always)]
    fn valid_at(s: &[u8], at: usize) -> bool {
        let vin = at + Format::WIDE;
        let temperature = vin + Format::WIDE;
        Format::valid_at(s, at) && Format::valid_at(s, vin) && Format::valid_at(s, temperature)
    }

    ghost wide = { unfold format_form in refl };
}
