// Demand 3 of the acceptance conditions, stated in specs/ and proved in proofs/ from the rules. There is no code here.
#![tactic(auto)]
