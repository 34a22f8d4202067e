// The machines of a page side by side, one for each cause: 0 VOUT_OV, 1 IOUT_OC (always at rest), 2 OT, 3 UT, 4 VIN_OV, 5 VIN_UV.
ghost use Rattle.std.specs.Prelude.{◌≡◌};
ghost use Rattle.retry.specs.Machines.{all_at_call, all_at_tick, any_holds, any_trips_now, all_valid};

// This and the next differ in the step alone: a function over steps would be no shorter.
pub fn all_at_call(machines: [u8; 6], responses: [u8; 6], present: [bool; 6]) -> [u8; 6]
    ensures { result ≡ all_at_call responses present machines }
{
    std::array::from_fn(|k| super::at_call(machines[k], responses[k], present[k]))
}

pub fn all_at_tick(machines: [u8; 6], responses: [u8; 6], present: [bool; 6]) -> [u8; 6]
    ensures { result ≡ all_at_tick responses present machines }
{
    std::array::from_fn(|k| super::at_tick(machines[k], responses[k], present[k]))
}

pub fn any_holds(machines: [u8; 6]) -> bool
    ensures { result ≡ any_holds machines }
{
    machines.iter().any(|&m| super::holds(m))
}

// Some machine trips the page in a step.
pub fn any_trips_now(before: [u8; 6], after: [u8; 6]) -> bool
    ensures { result ≡ any_trips_now before after }
{
    (0..6).any(|k| super::trips_now(before[k], after[k]))
}

// Machine by machine and no walk: the test for 15 looks at those of eight pages at every event.
#[tactic(auto, unfolding(crate::specs::Machines::all_valid))]
pub fn all_valid(machines: [u8; 6]) -> bool
    ensures { result ≡ all_valid machines }
{
    let [vout_ov, iout_oc, ot, ut, vin_ov, vin_uv] = machines;
    super::valid(vout_ov)
        && iout_oc == super::REST
        && super::valid(ot)
        && super::valid(ut)
        && super::valid(vin_ov)
        && super::valid(vin_uv)
}
