// Laws of the machine for readers, cited by no other proof: the limits to the unit, proofs/Limits.antt; what a lost boom
// holds up (document 02, T-02), proofs/Lost.antt.
#![tactic(auto)]
