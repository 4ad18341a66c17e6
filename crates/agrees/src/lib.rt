// Why the machine agrees with places: laws alone, under proofs/, that join its outcome to what the public contract says.
#![tactic(auto)]
