// One supply of the shelf: its settings, its measured values, its four status registers, its
// retry machines and whether it has tripped.
// Every rule takes the page by value and hands it back.
#![tactic(auto)]

ghost use Rattle.std.specs.Prelude.{◌≡◌, cond};
ghost use Rattle.page.specs.Page.{power_on_page};
ghost use Rattle.page.specs.Choice.{page_granted, chosen_limits, chosen_page};

use retry::REST;
use value::format::{Format, LINEAR};

pub mod causes; // causes.rt: which causes and warnings are present, and what they leave on the page
pub mod formats; // formats.rt: the format of a quantity
pub mod settings; // settings.rt: what a host writes, and which data are valid
pub mod status; // status.rt: STATUS_BYTE, STATUS_WORD and whether the page supplies

// Limits, responses and machines: 0 VOUT_OV, 1 IOUT_OC, 2 OT, 3 UT, 4 VIN_OV, 5 VIN_UV.
// Limits of warnings: 6 VOUT_OV, 7 IOUT_OC, 8 OT, 9 VIN_OV, 10 VIN_UV.
// Words and measured, by quantity: 0 VOUT, 1 IOUT, 2 VIN, 3 temperature.
// Formats: 0 IOUT, 1 VIN, 2 temperature. VOUT has none.
// Status: 0 STATUS_VOUT, 1 STATUS_IOUT, 2 STATUS_INPUT, 3 STATUS_TEMPERATURE.
// Lists beside each other, marks beside words, and bytes for what has a name elsewhere: the C interface.
#[repr(C)]
#[derive(Clone, Copy)]
pub struct Page {
    pub operation: u8,
    pub command: u16,
    pub limits: [u16; 11],
    pub responses: [u8; 6],
    pub machines: [u8; 6],
    pub words: [u16; 4],
    pub measured: [bool; 4],
    pub status: [u8; 4],
    pub tripped: bool,
    pub formats: [Format; 3],
}

// What is chosen for a page at power-on: formats as in a page, and fault limits by cause, of which those of DIRECT quantities count;
// as C has them.
#[repr(C)]
#[derive(Clone, Copy)]
pub struct PageChoice {
    pub formats: [Format; 3],
    pub limits: [u16; 6],
}

// The fault limits at power-on.
const VOUT_OV_LIMIT: u16 = 0x2A3D;

const IOUT_OC_LIMIT: u16 = 0xD280;

const OT_LIMIT: u16 = 0xEB70;

const UT_LIMIT: u16 = 0xEEC0;

const VIN_OV_LIMIT: u16 = 0xD3FF;

const VIN_UV_LIMIT: u16 = 0xC3F5;

// The page as power-on leaves it. A warning starts from the limit of the fault it warns of.
#[tactic(auto, unfolding(crate::specs::Page::power_on_page, cause::specs::Causes::causes, cause::specs::Causes::warnings))]
pub fn power_on_page() -> Page
    ensures { result ≡ power_on_page }
{
    Page {
        operation: settings::OFF,
        command: 0x2666,
        limits: [
            VOUT_OV_LIMIT,
            IOUT_OC_LIMIT,
            OT_LIMIT,
            UT_LIMIT,
            VIN_OV_LIMIT,
            VIN_UV_LIMIT,
            VOUT_OV_LIMIT,
            IOUT_OC_LIMIT,
            OT_LIMIT,
            VIN_OV_LIMIT,
            VIN_UV_LIMIT,
        ],
        responses: [0x80, 0xC0, 0x80, 0x80, 0x80, 0x80],
        machines: [REST; 6],
        words: [0; 4],
        measured: [false; 4],
        status: [0; 4],
        tripped: false,
        formats: [LINEAR; 3],
    }
}

// A fault limit at power-on: the one chosen where the format is DIRECT, else the usual one.
fn limit_at(f: Format, chosen: u16, usual: u16) -> u16
    ensures { result ≡ cond f.direct chosen usual }
{
    if f.direct { chosen } else { usual }
}

// The eleven limits: VOUT_OV's, those of the other causes, and for each warning that of the fault it warns of.
#[tactic(auto, unfolding(crate::specs::Choice::chosen_limits, cause::specs::Causes::causes, cause::specs::Causes::warnings))]
fn chosen_limits(c: PageChoice) -> [u16; 11]
    ensures { result ≡ chosen_limits c }
{
    let [iout, input, temperature] = c.formats;
    let [_, oc, ot, ut, ov, uv] = c.limits;
    let oc = limit_at(iout, oc, IOUT_OC_LIMIT);
    let ot = limit_at(temperature, ot, OT_LIMIT);
    let ut = limit_at(temperature, ut, UT_LIMIT);
    let ov = limit_at(input, ov, VIN_OV_LIMIT);
    let uv = limit_at(input, uv, VIN_UV_LIMIT);
    [
        VOUT_OV_LIMIT,
        oc,
        ot,
        ut,
        ov,
        uv,
        VOUT_OV_LIMIT,
        oc,
        ot,
        ov,
        uv,
    ]
}

// Whether power-on grants a choice.
#[tactic(auto, unfolding(crate::specs::Choice::page_granted))]
pub fn page_granted(c: PageChoice) -> bool
    ensures { result ≡ page_granted c }
{
    settings::formats_valid(c.formats)
}

// The page as power-on leaves it by a choice.
#[tactic(auto, unfolding(crate::specs::Choice::chosen_page))]
pub fn chosen_page(c: PageChoice) -> Page
    ensures { result ≡ chosen_page c }
{
    let formats = c.formats;
    let limits = chosen_limits(c);
    Page {
        limits,
        formats,
        ..power_on_page()
    }
}
