// The packet check of bytes, the values of Linear11 words, and the order of values in any two formats.
ghost use Rattle.std.specs.Prelude.{◌≡◌};
ghost use Rattle.pec.specs.Pec.{pec, pec_from};
ghost use Rattle.linear11.specs.Linear11.{scaled_of, linear_order};
ghost use Rattle.value.specs.Format.{comparison};
ghost use Rattle.tongsorrel.specs.Numbers.{order_number, compared};

use answer::DONE;
use std::cmp::Ordering;
use value::format::Format;

// The packet check (PEC) of a whole transaction, address bytes included.
#[unsafe(no_mangle)]
pub extern "C" fn tongsorrel_pec(bytes: &[u8]) -> u8
    ensures { result ≡ pec bytes.now }
{
    pec::pec(bytes)
}

// The packet check carried on from crc, the check of the bytes before.
#[unsafe(no_mangle)]
pub extern "C" fn tongsorrel_pec_from(crc: u8, bytes: &[u8]) -> u8
    ensures { result ≡ pec_from crc bytes.now }
{
    pec::pec_from(crc, bytes)
}

// The value of a Linear11 word times 65,536.
#[unsafe(no_mangle)]
pub extern "C" fn tongsorrel_linear11_scaled(word: u16) -> i64
    ensures { result ≡ scaled_of word }
{
    linear11::scaled(word)
}

// An order as a number: C has no enum of ours, and std numbers its own from -1.
#[tactic(auto, unfolding(crate::specs::Numbers::order_number))]
fn order_number(order: Ordering) -> u8
    ensures { result ≡ order_number order }
{
    match order {
        Ordering::Less => 0,
        Ordering::Equal => 1,
        Ordering::Greater => 2,
    }
}

// How the value of the Linear11 word a stands to that of b: 0 below, 1 equal, 2 above.
#[unsafe(no_mangle)]
pub extern "C" fn tongsorrel_linear11_compare(a: u16, b: u16) -> u8
    ensures { result ≡ order_number (linear_order a b) }
{
    order_number(linear11::compare_linear11(a, b))
}

// An answer, and how one value stands to another as a number: C has no Result.
#[repr(C)]
#[derive(Clone, Copy)]
pub struct Compared {
    pub answer: u8,
    pub order: u8,
}

// How the value of the word a in format f stands to that of b in format g: 27 where a format is not valid.
#[unsafe(no_mangle)]
pub extern "C" fn tongsorrel_compare(f: Format, a: u16, g: Format, b: u16) -> Compared
    ensures { result ≡ compared (comparison f a g b) }
{
    match value::compare(f, a, g, b) {
        Ok(order) => Compared {
            answer: DONE,
            order: order_number(order),
        },
        Err(refusal) => Compared {
            answer: refusal.into(),
            order: order_number(Ordering::Equal),
        },
    }
}
