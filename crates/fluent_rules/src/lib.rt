// Fluents, and the cells that rules over them give (02, (e)): definitions in specs/, laws in proofs/, and no code.
#![tactic(auto)]
