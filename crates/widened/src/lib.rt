// Definitions and theorems alone: what widening keeps and changes, and what a build says of the list that it gives.
#![tactic(auto)]
