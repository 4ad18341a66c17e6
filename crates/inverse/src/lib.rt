// Definitions and theorems alone: what stands at the front of parcels is what the reader's table gives, and nothing else does.
#![tactic(auto)]
