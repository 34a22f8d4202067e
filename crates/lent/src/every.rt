// Every record changed by one write, as PAGE FFh asks for.
ghost use Rattle.std.specs.Prelude.{◌≡◌, map};
ghost use Rattle.laws.specs.Lists.{any_pair};
ghost use Rattle.page.specs.Status.{risen};
ghost use Rattle.writes.specs.Left.{page_left};

use page::Page;
use writes::Write;

// Leaves each record as the write leaves a page that it acts on, and says whether a status bit rose on any.
pub fn every(pages: &mut [Page], w: Write) -> bool
    ensures rose { result ≡ any_pair risen pages.old (map (page_left w) pages.old) }
    ensures after { pages.new ≡ map (page_left w) pages.old }
{
    let mut rose = false;
    for p in pages.iter_mut() {
        let q = writes::left::page_left(w, *p);
        rose |= page::status::risen(*p, q);
        *p = q;
    }
    rose
}
