// No code: a number by its sign and size, the test of two ends, and lemmas on signed numbers in the machine's 64 bits.
#![tactic(auto)]
