// No code: the energy guarantee (data sheet 15.7) over one account and its totalizer, whatever device holds the account.
#![tactic(auto)]
