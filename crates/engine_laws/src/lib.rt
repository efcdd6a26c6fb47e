// The engine in code and the model are one: after each call the state holds the model's engine after the event. So what is proved of
// every history is proved of every list of calls.
#![tactic(auto)]
