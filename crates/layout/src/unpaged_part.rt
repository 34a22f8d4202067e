// The unpaged part at a place of a buffer, with its energy account.
ghost use Rattle.std.specs.Prelude.{◌≡◌, refl};
ghost use Rattle.unpaged.specs.Unpaged.{unpaged_valid};
ghost use Rattle.layout.specs.Layout.{account_form, unpaged_form};

use super::stored::{Checked, Stored};
use account::Account;
use unpaged::Unpaged;

#[tactic(auto, unfolding(crate::specs::Layout::account_form))]
impl Stored for Account {
    ghost form = { account_form };

    #[inline(always)]
    fn load(s: &[u8], at: &mut usize) -> Account {
        Account {
            accumulator: u16::load(s, at),
            rollover: u16::load(s, at),
            count: u32::load(s, at),
        }
    }

    fn store(self, s: &mut [u8], at: &mut usize) {
        self.accumulator.store(s, at);
        self.rollover.store(s, at);
        self.count.store(s, at);
    }
}

#[tactic(auto, unfolding(crate::specs::Layout::unpaged_form, crate::specs::Layout::account_form))]
impl Stored for Unpaged {
    ghost form = { unpaged_form };

    #[inline(always)]
    fn load(s: &[u8], at: &mut usize) -> Unpaged {
        Unpaged {
            page: u8::load(s, at),
            protect: u8::load(s, at),
            cml: u8::load(s, at),
            alert: bool::load(s, at),
            energy: Account::load(s, at),
        }
    }

    fn store(self, s: &mut [u8], at: &mut usize) {
        self.page.store(s, at);
        self.protect.store(s, at);
        self.cml.store(s, at);
        self.alert.store(s, at);
        self.energy.store(s, at);
    }
}

#[tactic(auto, unfolding(crate::specs::Layout::unpaged_form, crate::specs::Layout::account_form))]
impl Checked for Unpaged {
    ghost is_valid = { λ u. unpaged_valid 8 u };

    ghost WIDE = { 12 };

    const WIDE: usize = 12;

    #[inline(always)]
    fn valid_at(s: &[u8], mut at: usize) -> bool {
        unpaged::unpaged_valid(8, Unpaged::load(s, &mut at))
    }

    ghost wide = { unfold unpaged_form in unfold account_form in refl };
}
