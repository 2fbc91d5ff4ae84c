// What holds of every run of the corrector: definitions and theorems over what the contracts of its functions cite, and no code.
#![tactic(auto)]
