// No code: what holds of the streaming device with other calls between the events of a transaction, and over runs; stated in specs/ and proved in proofs/.
#![tactic(auto)]
