// Laws of what is counted and looked for over the first items of a list. They stand in proofs/.
#![tactic(auto)]
