// What the operations do together: the order theorem of demand 3, stated on areas in specs/ and proved in proofs/.
#![tactic(auto)]
