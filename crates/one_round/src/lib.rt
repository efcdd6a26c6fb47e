// One good round: the theorem of R17.1 to R17.6, stated on areas in specs/ and proved in proofs/.
#![tactic(auto)]
