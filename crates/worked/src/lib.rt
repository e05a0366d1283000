// Values worked by hand: a list of cases and one theorem, and no code.
#![tactic(auto)]
