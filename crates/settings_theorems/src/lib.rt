// What holds of settings files as a whole: stated in specs/ and proved in proofs/.
#![tactic(auto)]
