// The starred rows of document 01's chart, specs/Chart.antt, and those of the time for motorists (T-06), specs/Pause.antt, proved of the machine by
// computation in proofs/.
#![tactic(auto)]
