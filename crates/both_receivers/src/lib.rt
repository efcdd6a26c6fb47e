// The receiver with an area and the bitmap receiver do the same: stated in specs/ and proved in proofs/.
#![tactic(auto)]
