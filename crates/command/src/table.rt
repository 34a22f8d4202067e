// The table of command codes, looked up by every transaction.
ghost use Rattle.std.specs.Prelude.{◌≡◌};
ghost use Rattle.command.specs.Table.{access_number, entry_of, listed, lookup};

use super::codes::*;

// How a code is used: read, written, both, or in a process call alone, whose data bytes are then those written in it.
#[derive(Clone, Copy)]
enum Access {
    Read,
    Write,
    Both,
    ProcessCall,
}

// What the table says of a code: whether it is written, whether it is read, and its number of data bytes (a PEC byte not counted). A code
// of the table may be neither written nor read by itself.
#[derive(Clone, Copy, PartialEq, Eq)]
pub struct Entry {
    pub written: bool,
    pub read: bool,
    pub length: u8,
}

#[tactic(auto, unfolding(crate::specs::Table::entry_of))]
fn row(access: Access, length: u8) -> Option<Entry>
    ensures { listed result ≡ entry_of (0, access_number access, length) }
{
    Some(Entry {
        written: matches!(access, Access::Write | Access::Both),
        read: matches!(access, Access::Read | Access::Both),
        length,
    })
}

// What the table says of a code, if it has it.
#[tactic(auto, unfolding(crate::specs::Table::lookup, crate::specs::Table::table, crate::specs::Table::entry_of))]
pub fn lookup(code: u8) -> Option<Entry>
    ensures { listed result ≡ lookup code }
{
    match code {
        CLEAR_FAULTS => row(Access::Write, 0),
        CAPABILITY | VOUT_MODE | STATUS_BYTE | PMBUS_REVISION => row(Access::Read, 1),
        STATUS_WORD | READ_VIN | READ_VOUT | READ_IOUT | READ_TEMPERATURE_1 => row(Access::Read, 2),
        READ_EIN => row(Access::Read, 7),
        PAGE | OPERATION | WRITE_PROTECT => row(Access::Both, 1),
        VOUT_OV_FAULT_RESPONSE | IOUT_OC_FAULT_RESPONSE | OT_FAULT_RESPONSE => row(Access::Both, 1),
        UT_FAULT_RESPONSE | VIN_OV_FAULT_RESPONSE | VIN_UV_FAULT_RESPONSE => row(Access::Both, 1),
        STATUS_VOUT | STATUS_IOUT | STATUS_INPUT | STATUS_TEMPERATURE | STATUS_CML => row(
            Access::Both,
            1,
        ),
        VOUT_COMMAND => row(Access::Both, 2),
        VOUT_OV_FAULT_LIMIT | IOUT_OC_FAULT_LIMIT | OT_FAULT_LIMIT => row(Access::Both, 2),
        UT_FAULT_LIMIT | VIN_OV_FAULT_LIMIT | VIN_UV_FAULT_LIMIT => row(Access::Both, 2),
        VOUT_OV_WARN_LIMIT | IOUT_OC_WARN_LIMIT | OT_WARN_LIMIT => row(Access::Both, 2),
        VIN_OV_WARN_LIMIT | VIN_UV_WARN_LIMIT => row(Access::Both, 2),
        COEFFICIENTS => row(Access::ProcessCall, 3),
        _ => None,
    }
}
