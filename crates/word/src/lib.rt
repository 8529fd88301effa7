// Numbers as bytes, the highest first: two bytes or four. There are definitions here and what follows from them, and no code:
// the tags and the number of a block and its sums are written by them.
#![tactic(auto)]
