// The command codes by name (data sheet 3.1).
pub const PAGE: u8 = 0x00;

pub const OPERATION: u8 = 0x01;

pub const CLEAR_FAULTS: u8 = 0x03;

pub const WRITE_PROTECT: u8 = 0x10;

pub const CAPABILITY: u8 = 0x19;

pub const VOUT_MODE: u8 = 0x20;

pub const VOUT_COMMAND: u8 = 0x21;

pub const COEFFICIENTS: u8 = 0x30;

pub const VOUT_OV_FAULT_LIMIT: u8 = 0x40;

pub const VOUT_OV_FAULT_RESPONSE: u8 = 0x41;

pub const VOUT_OV_WARN_LIMIT: u8 = 0x42;

pub const IOUT_OC_FAULT_LIMIT: u8 = 0x46;

pub const IOUT_OC_FAULT_RESPONSE: u8 = 0x47;

pub const IOUT_OC_WARN_LIMIT: u8 = 0x4A;

pub const OT_FAULT_LIMIT: u8 = 0x4F;

pub const OT_FAULT_RESPONSE: u8 = 0x50;

pub const OT_WARN_LIMIT: u8 = 0x51;

pub const UT_FAULT_LIMIT: u8 = 0x53;

pub const UT_FAULT_RESPONSE: u8 = 0x54;

pub const VIN_OV_FAULT_LIMIT: u8 = 0x55;

pub const VIN_OV_FAULT_RESPONSE: u8 = 0x56;

pub const VIN_OV_WARN_LIMIT: u8 = 0x57;

pub const VIN_UV_WARN_LIMIT: u8 = 0x58;

pub const VIN_UV_FAULT_LIMIT: u8 = 0x59;

pub const VIN_UV_FAULT_RESPONSE: u8 = 0x5A;

pub const STATUS_BYTE: u8 = 0x78;

pub const STATUS_WORD: u8 = 0x79;

pub const STATUS_VOUT: u8 = 0x7A;

pub const STATUS_IOUT: u8 = 0x7B;

pub const STATUS_INPUT: u8 = 0x7C;

pub const STATUS_TEMPERATURE: u8 = 0x7D;

pub const STATUS_CML: u8 = 0x7E;

pub const READ_EIN: u8 = 0x86;

pub const READ_VIN: u8 = 0x88;

pub const READ_VOUT: u8 = 0x8B;

pub const READ_IOUT: u8 = 0x8C;

pub const READ_TEMPERATURE_1: u8 = 0x8D;

pub const PMBUS_REVISION: u8 = 0x98;
