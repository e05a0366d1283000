// How literals reach each other by implications, when some assignment has what each implies, and which is least: no code.
#![tactic(auto)]
