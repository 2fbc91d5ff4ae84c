// The runs are the program's: what `desk::serve` hands back, block after block, is what runs of steps give, each begun by a start. Definitions and theorems, no code.
#![tactic(auto)]
