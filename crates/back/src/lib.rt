// Definitions and theorems alone: what encodes is known. The parcels of each row that encodes give back the row, or the one of larger kind with the same parcels.
#![tactic(auto)]
