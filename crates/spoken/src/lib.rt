// The text is the runs': what `lines::answer` puts out for the whole lines of an input, turn after turn and read after read, is the text of what the runs among these
// lines say. Definitions and theorems, no code.
#![tactic(auto)]
