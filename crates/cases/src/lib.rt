// The cases by hand stand in specs/ and are proved in proofs/. No code.
#![tactic(auto)]
