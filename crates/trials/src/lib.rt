// Which sailings can't be crewed (02, P6): the trials as definitions in specs/, and what they mean in proofs/.
#![tactic(auto)]
