// No code: what holds of the device over lent records, over runs with stray calls between, and that with eight records it is
// the eight-page device. Stated in specs/ and proved in proofs/.
#![tactic(auto)]
