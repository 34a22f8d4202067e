// The transactions, replies and the totalizer of `host`, for C and Rust.
ghost use Rattle.std.specs.Prelude.{◌≡◌, length};
ghost use Rattle.replies.specs.Replies.{read_header};
ghost use Rattle.totalizer.specs.Totalizer.{fresh_totalizer, totalize};
ghost use Rattle.host.specs.Build.{write_frame, write_built, read_built, placed};
ghost use Rattle.host.specs.Parse.{parsed};

use host::build::Built;
use host::parse::Reply;
use totalizer::{Taken, Totalizer};

// A write, into the buffer from the place on.
#[unsafe(no_mangle)]
pub extern "C" fn tongsorrel_host_write(
    buffer: &mut [u8],
    place: usize,
    code: u8,
    bytes: &[u8],
    check: bool,
) -> Built
    ensures value { result ≡ write_built (length buffer.old) place code bytes.now check }
    ensures buffer_after { buffer.new ≡ placed result buffer.old place (write_frame code bytes.now check) }
{
    host::exports::tongsorrel_host_write(buffer, place, code, bytes, check)
}

// A read's header, into the buffer from the place on, and the number of bytes to clock.
#[unsafe(no_mangle)]
pub extern "C" fn tongsorrel_host_read(
    buffer: &mut [u8],
    place: usize,
    code: u8,
    check: bool,
) -> Built
    ensures value { result ≡ read_built (length buffer.old) place code check }
    ensures buffer_after { buffer.new ≡ placed result buffer.old place (read_header code) }
{
    host::exports::tongsorrel_host_read(buffer, place, code, check)
}

// A reply to a read of the code, into its fields.
#[unsafe(no_mangle)]
pub extern "C" fn tongsorrel_host_reply(code: u8, check: bool, reply: &[u8]) -> Reply
    ensures { result ≡ parsed code check reply.now }
{
    host::exports::tongsorrel_host_reply(code, check, reply)
}

// A totalizer that has accepted nothing.
#[unsafe(no_mangle)]
pub extern "C" fn tongsorrel_host_totalizer_fresh() -> Totalizer
    ensures { result ≡ fresh_totalizer }
{
    host::exports::tongsorrel_host_totalizer_fresh()
}

// One reply to a read of the code, 86h of READ_EIN: an account's seven bytes and the PEC.
#[unsafe(no_mangle)]
pub extern "C" fn tongsorrel_host_totalizer_take(t: Totalizer, code: u8, reply: &[u8]) -> Taken
    ensures { result ≡ totalize code t reply.now }
{
    host::exports::tongsorrel_host_totalizer_take(t, code, reply)
}

// The layout of `Built`, `Reply`, `Totalizer`, `Taken` and `Converted` has a number, which stands in this name: a program made for another
// does not link.
#[unsafe(no_mangle)]
pub extern "C" fn tongsorrel_host_layout_2() -> u32
    ensures { result ≡ 2 }
{
    host::exports::tongsorrel_host_layout_2()
}
