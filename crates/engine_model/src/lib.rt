// The link program's decisions over a disk that a crash may take things from: specs/ has the model, and proofs/ that a reported page is
// whole.
#![tactic(auto)]
