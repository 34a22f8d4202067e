// The host's totalizer, the whole state by value in and back.
ghost use Rattle.std.specs.Prelude.{◌≡◌};
ghost use Rattle.totalizer.specs.Totalizer.{fresh_totalizer, totalize};

use totalizer::{Taken, Totalizer};

// The code whose replies are handed over.
const READ_EIN: u8 = 0x86;

// A totalizer that has accepted nothing.
#[unsafe(no_mangle)]
pub extern "C" fn tongsorrel_totalizer_fresh() -> Totalizer
    ensures { result ≡ fresh_totalizer }
{
    totalizer::fresh()
}

// One reply: the seven bytes of READ_EIN and the PEC.
#[unsafe(no_mangle)]
pub extern "C" fn tongsorrel_totalizer_take(t: Totalizer, reply: &[u8]) -> Taken
    ensures { result ≡ totalize 0x86 t reply.now }
{
    totalizer::take(t, READ_EIN, reply)
}
