// What is kept of a transaction, at a place of a buffer.
ghost use Rattle.std.specs.Prelude.{◌≡◌, ◌≤◌, length, refl};
ghost use Rattle.bus.specs.Part.{part_valid};
ghost use Rattle.bus.specs.Automaton.{byted};
ghost use Rattle.layout.specs.Private.{heard_byte};
ghost use Rattle.layout.specs.Layout.{part_form};

use super::stored::{Checked, Stored};
use bus::Part;

#[tactic(auto, unfolding(crate::specs::Layout::part_form))]
impl Stored for Part {
    ghost form = { part_form };

    #[inline(always)]
    fn load(s: &[u8], at: &mut usize) -> Part {
        Part {
            phase: u8::load(s, at),
            count: u8::load(s, at),
            bytes: <[u8; 11]>::load(s, at),
            clocked: u8::load(s, at),
            reply: <[u8; 8]>::load(s, at),
        }
    }

    fn store(self, s: &mut [u8], at: &mut usize) {
        self.phase.store(s, at);
        self.count.store(s, at);
        self.bytes.store(s, at);
        self.clocked.store(s, at);
        self.reply.store(s, at);
    }
}

#[tactic(auto, unfolding(crate::specs::Layout::part_form))]
impl Checked for Part {
    ghost is_valid = { part_valid };

    ghost WIDE = { 22 };

    const WIDE: usize = 22;

    #[inline(always)]
    fn valid_at(s: &[u8], mut at: usize) -> bool {
        bus::part_valid(Part::load(s, &mut at))
    }

    ghost wide = { unfold part_form in refl };
}

// One byte more; the twelfth and all behind it are dropped.
#[tactic(auto, unfolding(crate::specs::Private::heard_byte))]
fn hear(s: &mut [u8], b: u8)
    requires { 22 ≤ length s.old }
    ensures { s.new ≡ heard_byte s.old b }
{
    let count = s[1];
    if count < 11 {
        s[1] = count + 1;
        s[2 + usize::from(count)] = b;
    }
}

// A byte that the host wrote is kept, and the phase after it. By a slice that is long enough, as docs/ARCHITECTURE.md names it.
pub fn keep(s: &mut [u8], b: u8)
    requires { 22 ≤ length s.old }
    ensures { s.new ≡ part_form.store s.old 0 (byted (part_form.get s.old 0) b) }
{
    s[0] = bus::after_byte(s[0]);
    hear(s, b);
}
