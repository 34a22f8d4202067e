// What a call does to every page of a state buffer, where they stand. The walks go by the pages' numbers: of the parts of a slice
// (`as_chunks_mut`) a proof does not know what the slice ends as.
ghost use Rattle.std.specs.Prelude.{◌≡◌, ◌&&◌, ◌<◌, ℕ, map, get_or, replicate};
ghost use Rattle.laws.specs.Lists.{any_of, any_pair};
ghost use Rattle.page.specs.declared.Page.{Page};
ghost use Rattle.page.specs.Page.{no_page, power_on_page};
ghost use Rattle.page.specs.Choice.{chosen_page};
ghost use Rattle.page.specs.Causes.{ticked};
ghost use Rattle.page.specs.Status.{any_status, risen};
ghost use Rattle.writes.specs.Left.{page_left};
ghost use Rattle.lent.specs.Every.{rising};
ghost use Rattle.layout.specs.Form.{store_all};
ghost use Rattle.layout.specs.Layout.{page_form, pages_in, pages_from, choices_in};
ghost use Rattle.buffer.specs.Private.{every_stored};

use layout::choices::choice_at;
use layout::pages::{any_status, load_page, set_page};
use layout::{CHOICES, SIZE};
use page::Page;
use writes::Write;

fn find_bit(s: &[u8; SIZE]) -> bool
    ensures { result ≡ any_of any_status (pages_in s.now) }
{
    let mut found = false;
    for i in 0..8 {
        found |= any_status(s, i);
    }
    found
}

// Some status bit of some page is 1. Where that is not wanted no page is looked at.
pub fn any_bit(s: &[u8; SIZE], wanted: bool) -> bool
    ensures { result ≡ (wanted && any_of any_status (pages_in s.now)) }
{
    wanted && find_bit(s)
}

// The write on every page, where they stand, and whether a status bit rose on any. No call of `each`: of what a closure changes that it
// captures nothing is known after the call.
fn write_each(s: &mut [u8; SIZE], w: Write) -> bool
    ensures rose { result ≡ any_pair risen (pages_in s.old) (map (page_left w) (pages_in s.old)) }
    ensures left { s.new ≡ store_all page_form s.old pages_from (map (page_left w) (pages_in s.old)) }
{
    let mut rose = false;
    for i in 0..8 {
        let p = load_page(s, i);
        let q = writes::left::page_left(w, p);
        rose |= page::status::risen(p, q);
        set_page(s, i, q);
    }
    rose
}

// The write that is still to be made on every page, where there is one; elsewhere no page is touched.
pub fn rest(s: &mut [u8; SIZE], write: Option<Write>) -> bool
    ensures rose { result ≡ rising write (pages_in s.old) }
    ensures left { s.new ≡ every_stored s.old write }
{
    match write {
        Some(w) => write_each(s, w),
        None => false,
    }
}

// Page i, p until now, becomes after(i, p), for each of the eight.
fn each<F: Fn(u8, Page) -> Page>(s: &mut [u8; SIZE], after: F)
    requires { (i : ℕ) (p : Page) → i < 8 → F.pre after i p }
    ensures pages { (i : ℕ) → i < 8 → F.post after i (get_or (pages_in s.old) i no_page) (get_or (pages_in s.new) i no_page) }
    ensures left { s.new ≡ store_all page_form s.old pages_from (pages_in s.new) }
{
    for i in 0..8 {
        let p = load_page(s, i);
        set_page(s, i, after(i, p));
    }
}

// A tick on every page.
pub fn tick_each(s: &mut [u8; SIZE])
    ensures { s.new ≡ store_all page_form s.old pages_from (map ticked (pages_in s.old)) }
{
    each(s, |_, p| page::causes::ticked(p));
}

// Page i becomes of(i), whatever it was, for each of the eight.
fn fill_each<F: Fn(u8) -> Page>(s: &mut [u8; SIZE], of: F)
    requires { (i : ℕ) → i < 8 → F.pre of i }
    ensures pages { (i : ℕ) → i < 8 → F.post of i (get_or (pages_in s.new) i no_page) }
    ensures left { s.new ≡ store_all page_form s.old pages_from (pages_in s.new) }
{
    for i in 0..8 {
        set_page(s, i, of(i));
    }
}

// Every page as power-on leaves it.
pub fn power_on_each(s: &mut [u8; SIZE])
    ensures { s.new ≡ store_all page_form s.old pages_from (replicate 8 power_on_page) }
{
    let p = page::power_on_page();
    fill_each(s, |_| p);
}

// Every page as power-on leaves it by its choice.
pub fn choose_each(s: &mut [u8; SIZE], choices: &[u8; CHOICES])
    ensures { s.new ≡ store_all page_form s.old pages_from (map chosen_page (choices_in choices.now)) }
{
    fill_each(s, |i| page::chosen_page(choice_at(choices, i)));
}
