// Definitions and theorems alone: the word of each row is faithful to its fields.
#![tactic(auto)]
