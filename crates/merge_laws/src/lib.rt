// What merging and the other operations do together, stated on areas in specs/ and proved in proofs/.
#![tactic(auto)]
