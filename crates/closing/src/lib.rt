// Closing in time (document 02, T-06) from every plant in range, specs/Closing.antt, proved of the machine in proofs/Closing.antt. The claim of
// crates/demand has it for lists from the fresh plant of a book.
#![tactic(auto)]
