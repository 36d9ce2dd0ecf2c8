// What the calls came to before SPP2 (02, P10): the former definitions in specs/, and that SPP1 files give the same answers in proofs/.
#![tactic(auto)]
