// What each command does, as one definition. The contracts of the crates above and the theorems on runs cite it. No code.
#![tactic(auto)]
