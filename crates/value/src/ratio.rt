// A measured value as a fraction, by its format, and the exact order of two fractions.
ghost use Rattle.std.specs.Prelude.{◌≡◌, ◌<◌, ◌≤◌, ◌*◌, ◌^◌, pos, ◌-ℤ◌, ◌*ℤ◌, nat_abs};
ghost use Rattle.value.specs.Value.{ratio_order, linear_num, linear_den, signed_by, direct_num, direct_den};

use std::cmp::Ordering;

// The value num / den.
#[derive(Clone, Copy)]
pub struct Ratio {
    pub num: i64,
    pub den: u64,
}

impl Ratio {
    // A DIRECT value with its coefficients.
    pub fn direct(y: i16, m: i16, b: i16, r: i8) -> Ratio
        requires { nat_abs r ≤ 6 }
        ensures { (result.num ≡ direct_num y m b r) × (result.den ≡ direct_den m r) }
    {
        let power = 10u32.pow(u32::from(r.unsigned_abs()));
        if r < 0 {
            return over(top(y, power, b, 1), m, 1);
        }
        over(top(y, 1, b, power), m, power)
    }

    // A Linear11 value.
    pub fn linear(word: u16) -> Ratio
        ensures { (result.num ≡ linear_num word) × (result.den ≡ linear_den word) }
    {
        let y = linear11::mantissa(word);
        let n = linear11::exponent(word);
        let power = 1u32 << n.unsigned_abs();
        if n < 0 {
            return Ratio {
                num: y,
                den: u64::from(power),
            };
        }
        Ratio {
            num: y * i64::from(power),
            den: 1,
        }
    }

    // The order of two values. The products take up to 127 bits and a sign; on 32 bits too they need no function of a runtime library.
    pub fn compare(self, other: Ratio) -> Ordering
        ensures { result ≡ ratio_order self other }
    {
        let left = i128::from(self.num) * i128::from(other.den);
        let right = i128::from(other.num) * i128::from(self.den);
        left.cmp(&right)
    }
}

// y * p - b * q.
fn top(y: i16, p: u32, b: i16, q: u32) -> i64
    requires { (p ≤ 1000000) × (q ≤ 1000000) }
    ensures value { result ≡ y *ℤ pos p -ℤ b *ℤ pos q }
    ensures bound { nat_abs result < 2 ^ 63 }
{
    i64::from(y) * i64::from(p) - i64::from(b) * i64::from(q)
}

// n / (m * q), the denominator made positive.
#[tactic(auto, unfolding(crate::specs::Value::signed_by))]
fn over(n: i64, m: i16, q: u32) -> Ratio
    requires { nat_abs n < 2 ^ 63 }
    ensures { (result.num ≡ signed_by m n) × (result.den ≡ nat_abs m * q) }
{
    let den = u64::from(m.unsigned_abs()) * u64::from(q);
    if m < 0 {
        return Ratio { num: -n, den };
    }
    Ratio { num: n, den }
}
