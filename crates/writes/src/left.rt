// What an accepted write leaves of the unpaged part, and of each page that it acts on. The alert depends on every page: the
// caller sets it.
ghost use Rattle.std.specs.Prelude.{◌≡◌};
ghost use Rattle.laws.specs.Bits.{without};
ghost use Rattle.page.specs.Causes.{settled};
ghost use Rattle.page.specs.Settings.{set_operation, set_vout_command, set_limit, set_response};
ghost use Rattle.unpaged.specs.Unpaged.{with_cml};
ghost use Rattle.writes.specs.Left.{changed, cleared, page_left, unpaged_left, clearing};

use super::asked::{Masks, Setting, Write};
use page::Page;
use unpaged::Unpaged;

// A page with one setting changed is brought up to date, in a function for each setting: where the settings meet before the page is
// settled, LLVM moves the page from place to place in parts that overlap.
fn operated(p: Page, x: u8) -> Page
    ensures { result ≡ settled (set_operation p x) }
{
    page::causes::settled(page::settings::set_operation(p, x))
}

fn commanded(p: Page, word: u16) -> Page
    ensures { result ≡ settled (set_vout_command p word) }
{
    page::causes::settled(page::settings::set_vout_command(p, word))
}

fn limited(p: Page, limit: u8, word: u16) -> Page
    ensures { result ≡ settled (set_limit p limit word) }
{
    page::causes::settled(page::settings::set_limit(p, limit, word))
}

fn responded(p: Page, cause: u8, x: u8) -> Page
    ensures { result ≡ settled (set_response p cause x) }
{
    page::causes::settled(page::settings::set_response(p, cause, x))
}

#[tactic(auto, unfolding(crate::specs::Left::changed, crate::specs::Left::applied))]
fn changed(p: Page, setting: Setting) -> Page
    ensures { result ≡ changed setting p }
{
    match setting {
        Setting::Operation(x) => operated(p, x),
        Setting::VoutCommand(word) => commanded(p, word),
        Setting::Limit(limit, word) => limited(p, limit, word),
        Setting::Response(cause, x) => responded(p, cause, x),
    }
}

// A page with bits cleared, brought up to date: the bits of present causes are set again.
#[tactic(auto, unfolding(crate::specs::Left::cleared))]
fn cleared(p: Page, m: Masks) -> Page
    ensures { result ≡ cleared m p }
{
    let lowered = page::settings::clear_bits(p, [m.vout, m.iout, m.input, m.temperature]);
    page::causes::settled(lowered)
}

#[tactic(auto, unfolding(crate::specs::Left::page_left))]
pub fn page_left(w: Write, p: Page) -> Page
    ensures { result ≡ page_left w p }
{
    match w {
        Write::Change(setting) => changed(p, setting),
        Write::Clear(masks) => cleared(p, masks),
        Write::Nothing | Write::SelectPage(_) | Write::Protect(_) | Write::ClearCml(_) => p,
    }
}

#[tactic(auto, unfolding(laws::specs::Bits::without))]
fn clear_cml(u: Unpaged, mask: u8) -> Unpaged
    ensures { result ≡ with_cml u (without u.cml mask) }
{
    Unpaged {
        cml: u.cml ^ (u.cml & mask),
        ..u
    }
}

#[tactic(auto, unfolding(crate::specs::Left::unpaged_left))]
pub fn unpaged_left(w: Write, u: Unpaged) -> Unpaged
    ensures { result ≡ unpaged_left w u }
{
    match w {
        Write::SelectPage(page) => Unpaged { page, ..u },
        Write::Protect(protect) => Unpaged { protect, ..u },
        Write::Clear(masks) => clear_cml(u, masks.cml),
        Write::ClearCml(mask) => clear_cml(u, mask),
        Write::Nothing | Write::Change(_) => u,
    }
}

// The write is a listed clearing: the alert is worked out anew from every bit.
#[tactic(auto, unfolding(crate::specs::Left::clearing))]
pub fn clears(w: Write) -> bool
    ensures { result ≡ clearing w }
{
    matches!(w, Write::Clear(_) | Write::ClearCml(_))
}
