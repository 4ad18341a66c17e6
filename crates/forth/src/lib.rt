// Definitions and theorems alone: what is known encodes. The row that the reader's table gives has the parcels that it was read from.
#![tactic(auto)]
