// The union of two received sets, each kept as its one canonical list of runs, and the laws of the walk over both lists at once that makes it.
#![tactic(auto)]
