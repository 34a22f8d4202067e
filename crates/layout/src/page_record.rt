// A page at a place of a buffer.
ghost use Rattle.std.specs.Prelude.{refl};
ghost use Rattle.page.specs.Settings.{page_valid};
ghost use Rattle.layout.specs.Layout.{page_form, page_wide, format_form};

use super::PAGE;
use super::stored::{Checked, Stored};
use page::{Page, settings};
use value::format::Format;

// Where those fields of a page stand in it that the test for 15 looks at. OPERATION is its first byte.
const RESPONSES: usize = 25;

const MACHINES: usize = 31;

const FORMATS: usize = 54;

#[tactic(auto, unfolding(crate::specs::Layout::page_form, crate::specs::Layout::format_form))]
impl Stored for Page {
    ghost form = { page_form };

    // Inlined, so that the place is a number in a register and no memory that a byte of the buffer might be; and written out, since at -Os
    // LLVM leaves the loop over an array as it is, with a counter of 64 bits.
    #[inline(always)]
    fn load(s: &[u8], at: &mut usize) -> Page {
        Page {
            operation: u8::load(s, at),
            command: u16::load(s, at),
            limits: [
                u16::load(s, at),
                u16::load(s, at),
                u16::load(s, at),
                u16::load(s, at),
                u16::load(s, at),
                u16::load(s, at),
                u16::load(s, at),
                u16::load(s, at),
                u16::load(s, at),
                u16::load(s, at),
                u16::load(s, at),
            ],
            responses: <[u8; 6]>::load(s, at),
            machines: <[u8; 6]>::load(s, at),
            words: [
                u16::load(s, at),
                u16::load(s, at),
                u16::load(s, at),
                u16::load(s, at),
            ],
            measured: [
                bool::load(s, at),
                bool::load(s, at),
                bool::load(s, at),
                bool::load(s, at),
            ],
            status: <[u8; 4]>::load(s, at),
            tripped: bool::load(s, at),
            formats: [
                Format::load(s, at),
                Format::load(s, at),
                Format::load(s, at),
            ],
        }
    }

    fn store(self, s: &mut [u8], at: &mut usize) {
        self.operation.store(s, at);
        self.command.store(s, at);
        self.limits.store(s, at);
        self.responses.store(s, at);
        self.machines.store(s, at);
        self.words.store(s, at);
        self.measured.store(s, at);
        self.status.store(s, at);
        self.tripped.store(s, at);
        let [iout, vin, temperature] = self.formats;
        iout.store(s, at);
        vin.store(s, at);
        temperature.store(s, at);
    }
}

impl Checked for Page {
    ghost is_valid = { page_valid };

    ghost WIDE = { page_wide };

    const WIDE: usize = PAGE;

    // Of OPERATION, the response to IOUT_OC, the machines and the formats: the first that is not valid ends the test.
    #[inline(always)]
    fn valid_at(s: &[u8], at: usize) -> bool {
        let machines = <[u8; 6]>::load(s, &mut (at + MACHINES));
        settings::valid_operation(s[at])
            && settings::valid_response(1, s[at + RESPONSES + 1])
            && retry::machines::all_valid(machines)
            && <[Format; 3]>::valid_at(s, at + FORMATS)
    }

    ghost wide = { unfold page_form in unfold format_form in refl };
}
