// No code: what holds of the device over runs of calls (data sheet 15.2 to 15.7), stated in specs/ and proved in proofs/.
#![tactic(auto)]
