// Theorems over the definitions of the calls: what a unit does over any sequence of calls.
#![tactic(auto)]
