// The versions of a build and of the counts that document 01 wants shut out: none meets the contract.
#![tactic(auto)]
