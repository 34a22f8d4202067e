// The conversions of `host`, for C and Rust.
ghost use Rattle.std.specs.Prelude.{◌≡◌};
ghost use Rattle.thousandths.specs.Conversion.{conversion_of, thousandths_of};
ghost use Rattle.thousandths.specs.Vout.{vout_conversion_of, vout_thousandths_of};

use thousandths::Converted;

// The Linear11 word nearest to a count of thousandths. VOUT words are not Linear11: they have functions of their own below.
#[unsafe(no_mangle)]
pub extern "C" fn tongsorrel_host_from_thousandths(count: i64) -> Converted
    ensures { result ≡ conversion_of count }
{
    host::numbers::tongsorrel_host_from_thousandths(count)
}

// The thousandths of a Linear11 word, a half away from zero.
#[unsafe(no_mangle)]
pub extern "C" fn tongsorrel_host_to_thousandths(word: u16) -> i64
    ensures { result ≡ thousandths_of word }
{
    host::numbers::tongsorrel_host_to_thousandths(word)
}

// The VOUT word nearest to a count of thousandths.
#[unsafe(no_mangle)]
pub extern "C" fn tongsorrel_host_vout_from_thousandths(count: i64) -> Converted
    ensures { result ≡ vout_conversion_of count }
{
    host::numbers::tongsorrel_host_vout_from_thousandths(count)
}

// The thousandths of a VOUT word, a half up.
#[unsafe(no_mangle)]
pub extern "C" fn tongsorrel_host_vout_to_thousandths(word: u16) -> i64
    ensures { result ≡ vout_thousandths_of word }
{
    host::numbers::tongsorrel_host_vout_to_thousandths(word)
}
