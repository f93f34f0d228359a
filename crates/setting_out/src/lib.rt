// Setting out an arrow board (document 02, T-08): which distance it gets, in words of its own, specs/SettingOut.antt, proved of the
// machine in proofs/.
#![tactic(auto)]
