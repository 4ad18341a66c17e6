// Definitions and theorems alone: the parcels of an accepted kernel are read back, each item's row at its place.
#![tactic(auto)]
