// What a command code means: codes that are alike share a case, with the number of the limit, the cause, the register or the quantity that
// they are about.
ghost use Rattle.std.specs.Prelude.{◌≡◌};
ghost use Rattle.command.specs.Meaning.{command_of, setting_of, fault_of, reading_of};

use super::codes::*;
use cause::{Cause, Limit, Quantity};

// The number of STATUS_CML among the status registers.
pub const CML_REGISTER: u8 = STATUS_CML - STATUS_VOUT;

// A code that the table lacks is a case here, and no None: whoever goes by the command treats it with those that are not written or not
// read, and each arm for a code of the table would only gain a Some.
#[derive(Clone, Copy, PartialEq, Eq)]
pub enum Command {
    SelectPage,
    Operation,
    ClearFaults,
    WriteProtect,
    Capability,
    VoutMode,
    VoutCommand,
    // a limit and a response by number, and not by name: what is promised of a command holds for every one (docs/PROMISES.md)
    Limit(u8),
    Response(u8),
    StatusByte,
    StatusWord,
    // a status register, cleared by writing ones: those of a page by their numbers, and STATUS_CML behind them
    Status(u8),
    ReadEin,
    // the latest word of a quantity
    Reading(u8),
    Revision,
    Absent,
    Coefficients,
}

// 00h to 30h: page, operation, protection, output voltage, coefficients
#[tactic(auto, unfolding(crate::specs::Meaning::setting_of))]
fn setting_of(code: u8) -> Command
    ensures { result ≡ setting_of code }
{
    match code {
        PAGE => Command::SelectPage,
        OPERATION => Command::Operation,
        CLEAR_FAULTS => Command::ClearFaults,
        WRITE_PROTECT => Command::WriteProtect,
        CAPABILITY => Command::Capability,
        VOUT_MODE => Command::VoutMode,
        VOUT_COMMAND => Command::VoutCommand,
        COEFFICIENTS => Command::Coefficients,
        _ => Command::Absent,
    }
}

// 40h to 5Ah: the fault limits, their responses and the warn limits
#[tactic(auto, unfolding(crate::specs::Meaning::fault_of))]
fn fault_of(code: u8) -> Command
    ensures { result ≡ fault_of code }
{
    match code {
        VOUT_OV_FAULT_LIMIT => Command::Limit(Limit::VoutOvFault as u8),
        VOUT_OV_FAULT_RESPONSE => Command::Response(Cause::VoutOv as u8),
        VOUT_OV_WARN_LIMIT => Command::Limit(Limit::VoutOvWarn as u8),
        IOUT_OC_FAULT_LIMIT => Command::Limit(Limit::IoutOcFault as u8),
        IOUT_OC_FAULT_RESPONSE => Command::Response(Cause::IoutOc as u8),
        IOUT_OC_WARN_LIMIT => Command::Limit(Limit::IoutOcWarn as u8),
        OT_FAULT_LIMIT => Command::Limit(Limit::OtFault as u8),
        OT_FAULT_RESPONSE => Command::Response(Cause::Ot as u8),
        OT_WARN_LIMIT => Command::Limit(Limit::OtWarn as u8),
        UT_FAULT_LIMIT => Command::Limit(Limit::UtFault as u8),
        UT_FAULT_RESPONSE => Command::Response(Cause::Ut as u8),
        VIN_OV_FAULT_LIMIT => Command::Limit(Limit::VinOvFault as u8),
        VIN_OV_FAULT_RESPONSE => Command::Response(Cause::VinOv as u8),
        VIN_OV_WARN_LIMIT => Command::Limit(Limit::VinOvWarn as u8),
        VIN_UV_WARN_LIMIT => Command::Limit(Limit::VinUvWarn as u8),
        VIN_UV_FAULT_LIMIT => Command::Limit(Limit::VinUvFault as u8),
        VIN_UV_FAULT_RESPONSE => Command::Response(Cause::VinUv as u8),
        _ => Command::Absent,
    }
}

// 86h to 98h: energy, measured values, revision
#[tactic(auto, unfolding(crate::specs::Meaning::reading_of))]
fn reading_of(code: u8) -> Command
    ensures { result ≡ reading_of code }
{
    match code {
        READ_EIN => Command::ReadEin,
        READ_VIN => Command::Reading(Quantity::Vin as u8),
        READ_VOUT => Command::Reading(Quantity::Vout as u8),
        READ_IOUT => Command::Reading(Quantity::Iout as u8),
        READ_TEMPERATURE_1 => Command::Reading(Quantity::Temperature as u8),
        PMBUS_REVISION => Command::Revision,
        _ => Command::Absent,
    }
}

// The command of a code, Absent for one that the table lacks.
#[tactic(auto, unfolding(crate::specs::Meaning::command_of))]
pub fn command_of(code: u8) -> Command
    ensures { result ≡ command_of code }
{
    match code {
        PAGE..=COEFFICIENTS => setting_of(code),
        VOUT_OV_FAULT_LIMIT..=VIN_UV_FAULT_RESPONSE => fault_of(code),
        STATUS_BYTE => Command::StatusByte,
        STATUS_WORD => Command::StatusWord,
        STATUS_VOUT..=STATUS_CML => Command::Status(code - STATUS_VOUT),
        READ_EIN..=PMBUS_REVISION => reading_of(code),
        _ => Command::Absent,
    }
}
