// Which commands act on the selected page.
ghost use Rattle.std.specs.Prelude.{◌≡◌};
ghost use Rattle.command.specs.Paged.{paged};

use super::codes::*;

#[tactic(auto, unfolding(crate::specs::Paged::paged))]
pub fn is_paged(code: u8) -> bool
    ensures { result ≡ paged code }
{
    !matches!(
        code,
        PAGE | WRITE_PROTECT | CAPABILITY | VOUT_MODE | STATUS_CML | READ_EIN | PMBUS_REVISION
    )
}
