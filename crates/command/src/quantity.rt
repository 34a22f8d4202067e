// Which codes carry a value, and of which quantity.
ghost use Rattle.std.specs.Prelude.{◌≡◌, MatchOption};
ghost use Rattle.cause.specs.Kinds.{quantity_number};
ghost use Rattle.command.specs.Quantity.{NO_VALUE, quantity_of};

use super::codes::*;
use cause::Quantity;

// The quantity of the value that a code carries, if it carries one.
#[tactic(auto, unfolding(crate::specs::Quantity::quantity_of, crate::specs::Quantity::carried, crate::specs::Meaning::command_of, crate::specs::Meaning::setting_of, crate::specs::Meaning::fault_of, crate::specs::Meaning::reading_of, cause::specs::Causes::causes, cause::specs::Causes::warnings))]
pub fn quantity_of(code: u8) -> Option<Quantity>
    ensures { MatchOption result (quantity_of code ≡ NO_VALUE) (λ quantity. quantity_of code ≡ quantity_number quantity) }
{
    match code {
        VOUT_COMMAND | VOUT_OV_FAULT_LIMIT | VOUT_OV_WARN_LIMIT | READ_VOUT => Some(Quantity::Vout),
        IOUT_OC_FAULT_LIMIT | IOUT_OC_WARN_LIMIT | READ_IOUT => Some(Quantity::Iout),
        VIN_OV_FAULT_LIMIT | VIN_OV_WARN_LIMIT => Some(Quantity::Vin),
        VIN_UV_FAULT_LIMIT | VIN_UV_WARN_LIMIT | READ_VIN => Some(Quantity::Vin),
        OT_FAULT_LIMIT | OT_WARN_LIMIT | UT_FAULT_LIMIT | READ_TEMPERATURE_1 => Some(
            Quantity::Temperature,
        ),
        _ => None,
    }
}
