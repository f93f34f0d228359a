// The desk (document 02, T-04): the rights of the senders, specs/Rights.antt, and what each of them sees, specs/Views.antt,
// in words of their own, proved of the machine in proofs/.
#![tactic(auto)]
