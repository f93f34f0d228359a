// Kinds 5 and 6, under the 1959 sheet (document 02, T-09): what they show, take and release, line by line, specs/OldSheet.antt, and as laws of
// every record, specs/Laws.antt; proved of the machine in proofs/.
#![tactic(auto)]
