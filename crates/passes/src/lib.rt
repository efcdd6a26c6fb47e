// The recorded passes, proved together (R10.7): specs/ says what each is, and proofs/ has the one theorem.
#![tactic(auto)]
