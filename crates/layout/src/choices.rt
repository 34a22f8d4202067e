// What is chosen for a page at power-on, at a place of a buffer: its formats and six fault limits.
ghost use Rattle.std.specs.Prelude.{◌≡◌, ◌*◌, ◌<◌, refl};
ghost use Rattle.page.specs.Choice.{page_granted};
ghost use Rattle.layout.specs.Layout.{choice_form, choice_wide, format_form};

use super::stored::{Checked, Stored};
use super::{CHOICE, CHOICES};
use page::PageChoice;
use value::format::Format;

#[tactic(auto, unfolding(crate::specs::Layout::choice_form, crate::specs::Layout::format_form))]
impl Stored for PageChoice {
    ghost form = { choice_form };

    fn load(s: &[u8], at: &mut usize) -> PageChoice {
        PageChoice {
            formats: <[Format; 3]>::load(s, at),
            limits: <[u16; 6]>::load(s, at),
        }
    }

    fn store(self, s: &mut [u8], at: &mut usize) {
        self.formats.store(s, at);
        self.limits.store(s, at);
    }
}

// A choice is granted by its formats alone.
#[tactic(auto, unfolding(crate::specs::Layout::choice_form, page::specs::Choice::page_granted))]
impl Checked for PageChoice {
    ghost is_valid = { page_granted };

    ghost WIDE = { choice_wide };

    const WIDE: usize = CHOICE;

    fn valid_at(s: &[u8], at: usize) -> bool {
        <[Format; 3]>::valid_at(s, at)
    }

    ghost wide = { unfold choice_form in unfold format_form in refl };
}

// The choice for page i of eight.
#[tactic(auto, unfolding(crate::specs::Layout::choice_form, crate::specs::Layout::format_form))]
pub fn choice_at(s: &[u8; CHOICES], i: u8) -> PageChoice
    requires { i < 8 }
    ensures { result ≡ choice_form.get s.now (choice_wide * i) }
{
    PageChoice::load(s, &mut (CHOICE * usize::from(i)))
}
