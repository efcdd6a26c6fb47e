// Every list of calls, from a fresh start and over restarts: the state holds the engine of the history that the calls are, and what is saved is its area.
// So what is proved of every history is proved of every run of a program.
#![tactic(auto)]
