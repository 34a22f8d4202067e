// What a write asks for, as data: a few kinds, whatever the command. Which data are valid.
ghost use Rattle.std.specs.Prelude.{◌≡◌};
ghost use Rattle.writes.specs.Asked.{register_masks, write_of, asked, valid_setting, valid_write};

use super::bytes::{byte_at, word_of};
use cause::Register;
use command::Command;
use command::meaning::CML_REGISTER;
use page::causes::weigh;

// One setting of a page.
#[derive(Clone, Copy, PartialEq, Eq)]
pub enum Setting {
    Operation(u8),
    VoutCommand(u16),
    // a limit by its number, and a response by that of its cause
    Limit(u8, u16),
    Response(u8, u8),
}

// The status bits to clear, by register.
#[derive(Clone, Copy, PartialEq, Eq)]
pub struct Masks {
    pub vout: u8,
    pub iout: u8,
    pub input: u8,
    pub temperature: u8,
    pub cml: u8,
}

const EVERY_BIT: Masks = Masks {
    vout: 0xFF,
    iout: 0xFF,
    input: 0xFF,
    temperature: 0xFF,
    cml: 0xFF,
};

#[derive(Clone, Copy, PartialEq, Eq)]
pub enum Write {
    // A code that is never written. It is a case here, and no None: the form of a write is looked at before, so whoever takes an accepted
    // write would unwrap what is always there.
    Nothing,
    SelectPage(u8),
    Protect(u8),
    // the pages that the write acts on
    Change(Setting),
    // bits of those pages and of STATUS_CML
    Clear(Masks),
    // bits of STATUS_CML alone; no page is touched
    ClearCml(u8),
}

// The mask of one register of the pages.
#[tactic(auto, unfolding(crate::specs::Asked::register_masks))]
fn register_masks(register: u8, mask: u8) -> Masks
    ensures { result ≡ register_masks register mask }
{
    Masks {
        vout: weigh(register == Register::Vout as u8, mask),
        iout: weigh(register == Register::Iout as u8, mask),
        input: weigh(register == Register::Input as u8, mask),
        temperature: weigh(register == Register::Temperature as u8, mask),
        cml: 0,
    }
}

// The write of a command with the first data byte x and the data word. A status register is written with ones at the bits to clear, and
// CLEAR_FAULTS clears every bit.
#[tactic(auto, unfolding(crate::specs::Asked::write_of, crate::specs::Asked::clear_faults, crate::specs::Asked::clear_status))]
pub fn write_of(command: Command, x: u8, word: u16) -> Write
    ensures { result ≡ write_of command x word }
{
    match command {
        Command::SelectPage => Write::SelectPage(x),
        Command::WriteProtect => Write::Protect(x),
        Command::ClearFaults => Write::Clear(EVERY_BIT),
        Command::Operation => Write::Change(Setting::Operation(x)),
        Command::VoutCommand => Write::Change(Setting::VoutCommand(word)),
        Command::Limit(limit) => Write::Change(Setting::Limit(limit, word)),
        Command::Response(cause) => Write::Change(Setting::Response(cause, x)),
        Command::Status(CML_REGISTER) => Write::ClearCml(x),
        Command::Status(register) => Write::Clear(register_masks(register, x)),
        _ => Write::Nothing,
    }
}

// The write of a transaction's bytes: address, code, data.
#[tactic(auto, unfolding(crate::specs::Asked::asked))]
pub fn asked(s: &[u8]) -> Write
    ensures { result ≡ asked s.now }
{
    let command = command::command_of(byte_at(s, 1));
    let x = byte_at(s, 2);
    write_of(command, x, word_of(x, byte_at(s, 3)))
}

#[tactic(auto, unfolding(crate::specs::Asked::valid_setting))]
fn valid_setting(setting: Setting) -> bool
    ensures { result ≡ valid_setting setting }
{
    match setting {
        Setting::Operation(x) => page::settings::valid_operation(x),
        Setting::Response(cause, x) => page::settings::valid_response(cause, x),
        Setting::VoutCommand(_) | Setting::Limit(_, _) => true,
    }
}

// The data are valid, in a device with n pages.
#[tactic(auto, unfolding(crate::specs::Asked::valid_write))]
pub fn valid_write(n: u8, write: Write) -> bool
    ensures { result ≡ valid_write n write }
{
    match write {
        Write::SelectPage(x) => unpaged::valid_page(n, x),
        Write::Protect(x) => unpaged::valid_protect(x),
        Write::Change(setting) => valid_setting(setting),
        Write::Nothing | Write::Clear(_) | Write::ClearCml(_) => true,
    }
}
