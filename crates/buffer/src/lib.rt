// The streaming device over a buffer that the firmware lends, which holds its state as bytes (crate `layout`). A buffer of another length,
// or one whose state gets 15, is left as it is.
#![tactic(auto)]

ghost use Rattle.std.specs.Borrow.{sem, LendsIf, Array, u8};
ghost use Rattle.std.specs.Prelude.{◌≡◌, true, false, MatchOption};
ghost use Rattle.layout.specs.State.{ready};

use layout::SIZE;

pub mod calls; // calls.rt: the other calls, power-on, what the firmware asks
mod every_page; // every_page.rt: what a call does to every page
pub mod steps; // steps.rt: the five events
mod stopping; // stopping.rt: what STOP ends

// The buffer, where its length and its state get no 15.
fn ready_buffer(s: &mut [u8]) -> Option<&mut [u8; SIZE]>
    ensures cases { MatchOption result (ready s.old ≡ false) (λ t. (ready s.old ≡ true) × (t.now ≡ s.old)) }
    ensures* writes_back { sem 𝓛 (LendsIf (Array u8 0) (Array u8 0) s.entry result (λ t. t) s.old) }
{
    if !layout::state::ready(s) {
        return None;
    }
    s.as_mut_array()
}
