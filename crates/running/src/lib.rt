// The running plan on the desk (02, P7): lists of steps as definitions in specs/, and that the reply is that of the full check in proofs/.
#![tactic(auto)]
