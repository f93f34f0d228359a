// Hut against cabin (document 02, T-07): when two sheets agree, in words of its own, specs/Cabin.antt, proved of the machine in
// proofs/.
#![tactic(auto)]
