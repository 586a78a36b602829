//! Ways through many regions, and the two laws of a search that hears of them: what it hears is reached, and
//! where nothing is left to ask, nothing better can be reached.
#![tactic(auto)]
