// What an accepted call does to the device, which is written, measured or ticked where it lies, and the page that a read looks at.
ghost use Rattle.std.specs.Prelude.{◌≡◌, true, cond, ◌||◌, ◌<◌, ◌%◌};
ghost use Rattle.laws.specs.Lists.{any_of};
ghost use Rattle.cause.specs.Kinds.{quantity_number};
ghost use Rattle.page.specs.Status.{any, any_status};
ghost use Rattle.writes.specs.Left.{clearing};
ghost use Rattle.unpaged.specs.Unpaged.{valid_page, shown};
ghost use Rattle.device.specs.Device.{page_of};
ghost use Rattle.device.specs.Private.{first_of, end_of};
ghost use Rattle.device.specs.Step.{written, measured, ticked_device};

use super::{Device, PAGES};
use cause::Quantity;
use page::Page;
use std::ops::Range;
use unpaged::{EVERY_PAGE, Unpaged};
use writes::Write;

// The alert after an accepted write: after a clearing, up exactly when a bit stands on any page or in STATUS_CML.
fn alert_after(w: Write, u: Unpaged, pages: &[Page], rose: bool) -> bool
    ensures { result ≡ cond (clearing w) (any_of any_status pages.now || any u.cml) (u.alert || rose) }
{
    if writes::left::clears(w) {
        return pages.iter().any(|&p| page::status::any_status(p)) || u.cml != 0;
    }
    u.alert || rose
}

// The pages that an accepted write acts on are neighbours.
fn acted_on(page: u8) -> Range<usize>
    ensures first { result.start ≡ first_of page }
    ensures last { result.end ≡ end_of page }
{
    if page == EVERY_PAGE {
        return 0..8;
    }
    let k = usize::from(page % PAGES);
    k..k + 1
}

// An accepted write, page after page. One loop for one page and for all: with a way of its own for all pages, whose number is known,
// LLVM takes the pages apart at every write.
pub fn written(d: &mut Device, w: Write)
    requires { valid_page 8 d.old.unpaged.page ≡ true }
    ensures { d.new ≡ written d.old w }
{
    let mut rose = false;
    let Range { start, end } = acted_on(d.unpaged.page);
    for k in start..end {
        let p = d.pages[k];
        let q = writes::left::page_left(w, p);
        rose |= page::status::risen(p, q);
        d.pages[k] = q;
    }
    d.unpaged = writes::left::unpaged_left(w, d.unpaged);
    d.unpaged.alert = alert_after(w, d.unpaged, &d.pages, rose);
}

// The page that a read looks at; of a state that gets 15, any.
pub fn page_shown(d: &Device) -> Page
    ensures { result ≡ page_of d.now (shown d.now.unpaged % 8) }
{
    d.pages[usize::from(unpaged::shown(d.unpaged) % PAGES)]
}

// An accepted measurement, on its page.
pub fn measured(d: &mut Device, page: u8, quantity: Quantity, word: u16)
    requires { page < 8 }
    ensures { d.new ≡ measured d.old page (quantity_number quantity) word }
{
    let k = usize::from(page);
    let p = d.pages[k];
    let changed = page::settings::set_measurement(p, quantity, word);
    let q = page::causes::settled(changed);
    d.pages[k] = q;
    d.unpaged.alert |= page::status::risen(p, q);
}

// A tick, page after page.
pub fn ticked(d: &mut Device)
    ensures { d.new ≡ ticked_device d.old }
{
    for p in d.pages.iter_mut() {
        *p = page::causes::ticked(*p);
    }
}
