// The format of a quantity's words: Linear11, or DIRECT with its coefficients. Two words of one quantity share them, so that their values
// stand to each other as the words do as signed numbers, the other way round where m is negative.
ghost use Rattle.std.specs.Prelude.{◌≡◌, ◌&&◌, ◌||◌, not};
ghost use Rattle.value.specs.Format.{raised, direct_order, format_order, format_valid};
ghost use Rattle.linear11.specs.Linear11.{word_order};

use std::cmp::Ordering;

// m and b are words, r is a byte, all in two's complement. `direct` is a mark beside them, and no Option: the C interface.
#[repr(C)]
#[derive(Clone, Copy)]
pub struct Format {
    pub direct: bool,
    pub m: u16,
    pub b: u16,
    pub r: u8,
}

// Linear11 words.
pub const LINEAR: Format = Format {
    direct: false,
    m: 0,
    b: 0,
    r: 0,
};

// Words of a DIRECT quantity with this m.
#[tactic(auto, unfolding(crate::specs::Format::direct_order))]
fn compare_direct(m: u16, a: u16, b: u16) -> Ordering
    ensures { result ≡ direct_order m a b }
{
    if m == 0 {
        return Ordering::Equal;
    }
    let order = a.cast_signed().cmp(&b.cast_signed());
    if m.cast_signed() < 0 {
        return order.reverse();
    }
    order
}

// The order of the values of two words.
pub fn compare_words(f: Format, a: u16, b: u16) -> Ordering
    ensures { result ≡ format_order f a b }
{
    if f.direct {
        return compare_direct(f.m, a, b);
    }
    linear11::compare_linear11(a, b)
}

// Under a DIRECT mark m is not 0 and R is -6 to 6.
#[tactic(auto, unfolding(crate::specs::Format::format_valid))]
pub fn format_valid(f: Format) -> bool
    ensures { result ≡ format_valid f }
{
    !f.direct || (f.m != 0 && matches!(f.r.cast_signed(), -6..=6))
}
