// Page records lent as a slice: how many there are and whether all are valid, one record taken out and put back, and the
// walks over all of them; and choices lent beside them for power-on. No rule is decided here; a record goes to a rule by value and
// comes back.
#![tactic(auto)]

ghost use Rattle.std.specs.Prelude.{◌≡◌, map, length, get_or, replicate};
ghost use Rattle.laws.specs.Lists.{all_of, any_of};
ghost use Rattle.page.specs.Page.{power_on_page};
ghost use Rattle.page.specs.Choice.{usual_page, page_granted};
ghost use Rattle.page.specs.Causes.{ticked};
ghost use Rattle.page.specs.Status.{any_status};
ghost use Rattle.records.specs.Records.{surveyed, taken, put_back, chosen_pages};

use page::{Page, PageChoice};
use value::format::Format;

// So many records a device has at most. Of more none is looked at.
const MOST: usize = 96;

// What a call has to know of all records before it begins: their number, where there are at most 96 and each is valid.
pub fn survey(pages: &[Page]) -> Option<u8>
    ensures { result ≡ surveyed pages.now }
{
    let n = pages.len();
    if n > MOST {
        return None;
    }
    let valid = pages.iter().all(|&p| page::settings::page_valid(p));
    valid.then_some(n as u8)
}

// Record i; past the end a page as power-on leaves it, and so of more than 96 records, none of which is read.
pub fn take(pages: &[Page], i: u8) -> Page
    ensures { result ≡ taken pages.now i }
{
    if pages.len() > MOST {
        return page::power_on_page();
    }
    pages
        .get(usize::from(i))
        .copied()
        .unwrap_or_else(page::power_on_page)
}

// Sets record i; past the end, and of more than 96 records, it sets none.
pub fn put(pages: &mut [Page], i: u8, p: Page)
    ensures { pages.new ≡ put_back pages.old i p }
{
    let k = usize::from(i);
    if k < pages.len() && pages.len() <= MOST {
        pages[k] = p;
    }
}

// Some status bit of some record is 1.
pub fn any_bit(pages: &[Page]) -> bool
    ensures { result ≡ any_of any_status pages.now }
{
    pages.iter().any(|&p| page::status::any_status(p))
}

// Every record as power-on leaves it.
pub fn power_on(pages: &mut [Page])
    ensures { pages.new ≡ replicate (length pages.old) power_on_page }
{
    pages.fill(page::power_on_page());
}

// A tick on every record.
pub fn tick(pages: &mut [Page])
    ensures { pages.new ≡ map ticked pages.old }
{
    for p in pages.iter_mut() {
        *p = page::causes::ticked(*p);
    }
}

// Power-on grants each choice.
pub fn all_granted(choices: &[PageChoice]) -> bool
    ensures { result ≡ all_of page_granted choices.now }
{
    choices.iter().all(|&c| page::page_granted(c))
}

// The choice of a page of which nothing is chosen: all linear.
fn usual_page() -> PageChoice
    ensures { result ≡ usual_page }
{
    PageChoice {
        formats: [Format {
            direct: false,
            m: 0,
            b: 0,
            r: 0,
        }; 3],
        limits: [0; 6],
    }
}

// Choice i; past the end the usual one.
pub fn choice_at(choices: &[PageChoice], i: usize) -> PageChoice
    ensures { result ≡ get_or choices.now i usual_page }
{
    choices.get(i).copied().unwrap_or_else(usual_page)
}

// Every record as power-on leaves the page of its choice; a record without one as the usual choice has it.
pub fn power_on_by(pages: &mut [Page], choices: &[PageChoice])
    ensures { pages.new ≡ chosen_pages (length pages.old) choices.now }
{
    for (i, p) in pages.iter_mut().enumerate() {
        *p = page::chosen_page(choice_at(choices, i));
    }
}
