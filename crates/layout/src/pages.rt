// One of the eight pages of a state buffer.
ghost use Rattle.std.specs.Prelude.{◌≡◌, cond, ◌&&◌, ◌+◌, ◌*◌, ◌<◌, ltb, get_or};
ghost use Rattle.page.specs.Page.{power_on_page};
ghost use Rattle.page.specs.Status.{any_status};
ghost use Rattle.layout.specs.Layout.{page_form, pages_in, page_wide, pages_from};

use super::stored::Stored;
use super::{PAGE, PAGES, SIZE};
use page::Page;

// Where the status registers of a page stand in it.
const STATUS: usize = 49;

// Where page i stands.
pub(crate) fn place(i: u8) -> usize
    ensures { result ≡ pages_from + page_wide * i }
{
    PAGES + PAGE * usize::from(i)
}

// Page i of eight.
pub fn load_page(s: &[u8; SIZE], i: u8) -> Page
    requires { i < 8 }
    ensures { result ≡ get_or (pages_in s.now) i power_on_page }
{
    Page::load(s, &mut place(i))
}

// Some status bit of page i of eight is 1, from its four status bytes alone.
pub fn any_status(s: &[u8; SIZE], i: u8) -> bool
    requires { i < 8 }
    ensures { result ≡ any_status (get_or (pages_in s.now) i power_on_page) }
{
    let at = place(i) + STATUS;
    (s[at] | s[at + 1] | s[at + 2] | s[at + 3]) != 0
}

// Page i; past the last a page as power-on leaves it.
pub fn page_at(s: &[u8; SIZE], i: u8) -> Page
    ensures { result ≡ get_or (pages_in s.now) i power_on_page }
{
    if i < 8 {
        load_page(s, i)
    } else {
        page::power_on_page()
    }
}

// Stores page i, where there is such a page.
pub fn set_page(s: &mut [u8; SIZE], i: u8, p: Page)
    ensures { s.new ≡ cond (ltb i 8) (page_form.store s.old (pages_from + page_wide * i) p) s.old }
{
    if i < 8 {
        p.store(s, &mut place(i));
    }
}

// The same, where that is wanted: a test that two callers, and their proofs, would make otherwise.
pub fn put_page(s: &mut [u8; SIZE], i: u8, wanted: bool, p: Page)
    ensures { s.new ≡ cond (wanted && ltb i 8) (page_form.store s.old (pages_from + page_wide * i) p) s.old }
{
    if wanted {
        set_page(s, i, p);
    }
}
