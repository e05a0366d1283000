// Whole numbers as ledgers: definitions and laws alone, and no code.
#![tactic(auto)]
