// A STATUS that was written reads back, in the terms of the public operations: stated in specs/ and proved in proofs/.
#![tactic(auto)]
