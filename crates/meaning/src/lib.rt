// The rules over whole numbers and the theorems about them: no floats, and no code.
#![tactic(auto)]
