// The rules of a valid kernel; the theorem that a list is accepted exactly when they hold stands in proofs/.
#![tactic(auto)]
