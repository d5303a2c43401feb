// The calls of a whole station, as definitions alone: the promise of agreement and the calls' contracts speak of them.
#![tactic(auto)]
