// A whole state buffer: the test for 15, and its parts but the pages, each read and stored.
ghost use Rattle.std.specs.Prelude.{◌≡◌};
ghost use Rattle.laws.specs.Lists.{all_of};
ghost use Rattle.page.specs.Settings.{page_valid};
ghost use Rattle.stream.specs.Stream.{state_valid};
ghost use Rattle.layout.specs.Form.{octet, store_all};
ghost use Rattle.layout.specs.State.{decode, ready};
ghost use Rattle.layout.specs.Layout.{part_form, unpaged_form, unpaged_at, pages_in};

use super::pages::place;
use super::stored::{Checked, Stored};
use super::{REPLY, SIZE, UNPAGED};
use bus::Part;
use page::Page;
use unpaged::Unpaged;

// Each page is valid. The first that is not ends the test. No call of `all_valid`, which counts with 64 bits: that costs a controller five
// instructions a page, at every event.
fn pages_valid(s: &[u8; SIZE]) -> bool
    ensures { result ≡ all_of page_valid (pages_in s.now) }
{
    for i in 0..8 {
        if !Page::valid_at(s, place(i)) {
            return false;
        }
    }
    true
}

// It ends at the first part that is not valid: of a test without branches LLVM makes vector code, which takes longer.
fn holds_valid(s: &[u8; SIZE]) -> bool
    ensures { result ≡ state_valid (decode s.now) }
{
    Part::valid_at(s, 0) && Unpaged::valid_at(s, UNPAGED) && pages_valid(s)
}

// The right length, and a state that gets no 15.
pub fn ready(s: &[u8]) -> bool
    ensures { result ≡ ready s.now }
{
    match s.as_array::<SIZE>() {
        Some(s) => holds_valid(s),
        None => false,
    }
}

// What is kept of a transaction.
pub fn part_of(s: &[u8; SIZE]) -> Part
    ensures { result ≡ part_form.get s.now 0 }
{
    Part::load(s, &mut 0)
}

pub fn set_part(s: &mut [u8; SIZE], p: Part)
    ensures { s.new ≡ part_form.store s.old 0 p }
{
    p.store(s, &mut 0);
}

// The reply alone.
pub fn set_reply(s: &mut [u8; SIZE], reply: [u8; 8])
    ensures { s.new ≡ store_all octet s.old 14 reply }
{
    reply.store(s, &mut REPLY);
}

pub fn unpaged_of(s: &[u8; SIZE]) -> Unpaged
    ensures { result ≡ unpaged_form.get s.now unpaged_at }
{
    Unpaged::load(s, &mut UNPAGED)
}

pub fn set_unpaged(s: &mut [u8; SIZE], u: Unpaged)
    ensures { s.new ≡ unpaged_form.store s.old unpaged_at u }
{
    u.store(s, &mut UNPAGED);
}
