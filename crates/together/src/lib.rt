// All anchors at once: one theorem over the promises of the calls, worked values, and no code.
#![tactic(auto)]
