// Packet check and values of `tongsorrel`, for C and Rust.
ghost use Rattle.std.specs.Prelude.{◌≡◌};
ghost use Rattle.pec.specs.Pec.{pec, pec_from};
ghost use Rattle.linear11.specs.Linear11.{scaled_of, linear_order};
ghost use Rattle.value.specs.Format.{comparison};
ghost use Rattle.tongsorrel.specs.Numbers.{order_number, compared};

use tongsorrel::values::Compared;
use value::format::Format;

// The packet check (PEC) of a whole transaction, address bytes included.
#[unsafe(no_mangle)]
pub extern "C" fn tongsorrel_pec(bytes: &[u8]) -> u8
    ensures { result ≡ pec bytes.now }
{
    tongsorrel::values::tongsorrel_pec(bytes)
}

// The packet check carried on from crc, the check of the bytes before.
#[unsafe(no_mangle)]
pub extern "C" fn tongsorrel_pec_from(crc: u8, bytes: &[u8]) -> u8
    ensures { result ≡ pec_from crc bytes.now }
{
    tongsorrel::values::tongsorrel_pec_from(crc, bytes)
}

// The value of a Linear11 word times 65,536.
#[unsafe(no_mangle)]
pub extern "C" fn tongsorrel_linear11_scaled(word: u16) -> i64
    ensures { result ≡ scaled_of word }
{
    tongsorrel::values::tongsorrel_linear11_scaled(word)
}

// How the value of the Linear11 word a stands to that of b: 0 below, 1 equal, 2 above.
#[unsafe(no_mangle)]
pub extern "C" fn tongsorrel_linear11_compare(a: u16, b: u16) -> u8
    ensures { result ≡ order_number (linear_order a b) }
{
    tongsorrel::values::tongsorrel_linear11_compare(a, b)
}

// How the value of the word a in format f stands to that of b in format g: 27 where a format is not valid.
#[unsafe(no_mangle)]
pub extern "C" fn tongsorrel_compare(f: Format, a: u16, g: Format, b: u16) -> Compared
    ensures { result ≡ compared (comparison f a g b) }
{
    tongsorrel::values::tongsorrel_compare(f, a, g, b)
}
