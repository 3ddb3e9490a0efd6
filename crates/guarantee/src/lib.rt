// What the operations guarantee together: demand 2 for the run, and demand 3 for the check and the cabinet. The crate has theorems only.
#![tactic(auto)]
