// Which causes and warnings are present, and what they leave: latched status bits, and the trip. Their table is written out here, for
// speed.
ghost use Rattle.std.specs.Prelude.{◌≡◌};
ghost use Rattle.cause.specs.Causes.{limit_of};
ghost use Rattle.cause.specs.Kinds.{quantity_number, limit_number};
ghost use Rattle.retry.specs.Response.{off_while_present};
ghost use Rattle.page.specs.Causes.{order_by, crossed, present_causes, present_warnings, present_limits, weigh, raised, trips_at_once, off_while_lasts, moved, settled, ticked};

use super::settings::SHUT_DOWN;
use super::{Page, formats};
use cause::{Cause, Limit, Quantity};
use retry::Action;
use std::cmp::Ordering;
use value::format::Format;

// The bits of the status registers: of a fault where a limit is crossed upwards, and of its warning,
const FAULT_ABOVE: u8 = 0x80;

const WARNING_ABOVE: u8 = 0x40;

// of the two where a limit is crossed downwards,
const FAULT_BELOW: u8 = 0x10;

const WARNING_BELOW: u8 = 0x20;

// and of IOUT_OC's warning: bit 6 of its register is another fault's in the standard.
const IOUT_OC_WARNING: u8 = 0x20;

// How a word stands to a limit of its quantity: VOUT's as plain numbers, the others by their values.
#[tactic(auto, unfolding(crate::specs::Causes::order_by))]
fn compare(formats: [Format; 3], quantity: Quantity, word: u16, limit: u16) -> Ordering
    ensures { result ≡ order_by formats (quantity_number quantity) word limit }
{
    if quantity == Quantity::Vout {
        return linear11::compare_unsigned(word, limit);
    }
    let format = formats::format_of(formats, Some(quantity));
    value::format::compare_words(format, word, limit)
}

// The latest word of the limit's quantity, if there is one, is strictly past the limit. An early return: without it the comparisons become slow
// vector code. Inlined, since each caller names the limit.
#[inline(always)]
fn crossed(p: &Page, limit: Limit) -> bool
    ensures { result ≡ crossed p.now (limit_of (limit_number limit)) }
{
    let quantity = limit.quantity();
    if !p.measured[quantity as usize] {
        return false;
    }
    let order = compare(
        p.formats,
        quantity,
        p.words[quantity as usize],
        p.limits[limit as usize],
    );
    match limit {
        Limit::UtFault | Limit::VinUvFault | Limit::VinUvWarn => order.is_lt(),
        _ => order.is_gt(),
    }
}

// The six causes, each present or not.
#[tactic(auto, unfolding(crate::specs::Causes::present_causes, cause::specs::Causes::causes, cause::specs::Causes::warnings))]
pub fn present_causes(p: Page) -> [bool; 6]
    ensures { result ≡ present_causes p }
{
    [
        crossed(&p, Limit::VoutOvFault),
        crossed(&p, Limit::IoutOcFault),
        crossed(&p, Limit::OtFault),
        crossed(&p, Limit::UtFault),
        crossed(&p, Limit::VinOvFault),
        crossed(&p, Limit::VinUvFault),
    ]
}

// The five warnings, each present or not.
#[tactic(auto, unfolding(crate::specs::Causes::present_warnings, cause::specs::Causes::causes, cause::specs::Causes::warnings))]
fn present_warnings(p: Page) -> [bool; 5]
    ensures { result ≡ present_warnings p }
{
    [
        crossed(&p, Limit::VoutOvWarn),
        crossed(&p, Limit::IoutOcWarn),
        crossed(&p, Limit::OtWarn),
        crossed(&p, Limit::VinOvWarn),
        crossed(&p, Limit::VinUvWarn),
    ]
}

// A register's bit, or none.
#[tactic(auto, unfolding(crate::specs::Causes::weigh))]
pub fn weigh(set: bool, mask: u8) -> u8
    ensures { result ≡ weigh set mask }
{
    if set { mask } else { 0 }
}

// The four status registers of p with the bits of its present faults and warnings set.
#[tactic(auto, unfolding(crate::specs::Causes::raised, crate::specs::Causes::marked, crate::specs::Causes::present_causes, crate::specs::Causes::present_warnings, cause::specs::Causes::causes, cause::specs::Causes::warnings))]
fn raised(p: Page, fault: [bool; 6], warning: [bool; 5]) -> [u8; 4]
    requires { (fault ≡ present_causes p) × (warning ≡ present_warnings p) }
    ensures { result ≡ raised p.status (present_limits p) }
{
    let [vout, iout, input, temperature] = p.status;
    let [vout_ov, iout_oc, ot, ut, vin_ov, vin_uv] = fault;
    let [
        vout_ov_warn,
        iout_oc_warn,
        ot_warn,
        vin_ov_warn,
        vin_uv_warn,
    ] = warning;
    [
        vout | weigh(vout_ov, FAULT_ABOVE) | weigh(vout_ov_warn, WARNING_ABOVE),
        iout | weigh(iout_oc, FAULT_ABOVE) | weigh(iout_oc_warn, IOUT_OC_WARNING),
        input
            | weigh(vin_ov, FAULT_ABOVE)
            | weigh(vin_uv, FAULT_BELOW)
            | weigh(vin_ov_warn, WARNING_ABOVE)
            | weigh(vin_uv_warn, WARNING_BELOW),
        temperature
            | weigh(ot, FAULT_ABOVE)
            | weigh(ut, FAULT_BELOW)
            | weigh(ot_warn, WARNING_ABOVE),
    ]
}

// Some present cause has a response that trips the page without a machine: C0h for IOUT_OC.
#[tactic(auto, unfolding(crate::specs::Causes::trips_at_once, cause::specs::Causes::causes, cause::specs::Causes::warnings))]
fn trips_at_once(present: [bool; 6], responses: [u8; 6]) -> bool
    ensures { result ≡ trips_at_once present responses }
{
    let iout_oc = Cause::IoutOc as usize;
    present[iout_oc] & (responses[iout_oc] == SHUT_DOWN)
}

// A response that keeps the page off while its cause lasts.
fn is_off(response: u8) -> bool
    ensures { result ≡ off_while_present response }
{
    Action::from(response) == Action::OffWhilePresent
}

// Some present cause has a response that keeps the page off while it lasts: action 11, which IOUT_OC has not.
pub fn off_while_lasts(present: [bool; 6], responses: [u8; 6]) -> bool
    ensures { result ≡ off_while_lasts present responses }
{
    let retried = [
        Cause::VoutOv,
        Cause::Ot,
        Cause::Ut,
        Cause::VinOv,
        Cause::VinUv,
    ];
    retried.iter().any(|&cause| present[cause as usize] && is_off(responses[cause as usize]))
}

// Whether the page is tripped once its machines are these: it was, or a present cause or one of the machines trips it now.
#[tactic(auto, unfolding(crate::specs::Causes::moved))]
fn tripped(p: Page, fault: [bool; 6], machines: [u8; 6]) -> bool
    requires { fault ≡ present_causes p }
    ensures { result ≡ (moved p machines).tripped }
{
    p.tripped
        | trips_at_once(fault, p.responses)
        | retry::machines::any_trips_now(p.machines, machines)
}

// The page brought up to date, at the end of a call that touched it: present causes and warnings set their bits, and the causes move its
// machines. Warnings never trip it.
#[tactic(auto, unfolding(crate::specs::Causes::settled, crate::specs::Causes::moved))]
pub fn settled(p: Page) -> Page
    ensures { result ≡ settled p }
{
    let fault = present_causes(p);
    let warning = present_warnings(p);
    let status = raised(p, fault, warning);
    let machines = retry::machines::all_at_call(p.machines, p.responses, fault);
    let tripped = tripped(p, fault, machines);
    Page {
        machines,
        status,
        tripped,
        ..p
    }
}

// A tick: the machines move on. No bit is set: a present cause has its bit already.
#[tactic(auto, unfolding(crate::specs::Causes::ticked, crate::specs::Causes::moved))]
pub fn ticked(p: Page) -> Page
    ensures { result ≡ ticked p }
{
    let fault = present_causes(p);
    let machines = retry::machines::all_at_tick(p.machines, p.responses, fault);
    let tripped = tripped(p, fault, machines);
    Page {
        machines,
        tripped,
        ..p
    }
}
