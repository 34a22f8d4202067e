// The host's totalizer of `tongsorrel`, for C and Rust.
ghost use Rattle.std.specs.Prelude.{◌≡◌};
ghost use Rattle.totalizer.specs.Totalizer.{fresh_totalizer, totalize};

use totalizer::{Taken, Totalizer};

// A totalizer that has accepted nothing.
#[unsafe(no_mangle)]
pub extern "C" fn tongsorrel_totalizer_fresh() -> Totalizer
    ensures { result ≡ fresh_totalizer }
{
    tongsorrel::totals::tongsorrel_totalizer_fresh()
}

// One reply: the seven bytes of READ_EIN and the PEC.
#[unsafe(no_mangle)]
pub extern "C" fn tongsorrel_totalizer_take(t: Totalizer, reply: &[u8]) -> Taken
    ensures { result ≡ totalize 0x86 t reply.now }
{
    tongsorrel::totals::tongsorrel_totalizer_take(t, reply)
}
