// The laws of walked functions: what a step of the code does to what is owned, lent, shared and handed back; stated and proved under proofs/.
#![tactic(auto)]
