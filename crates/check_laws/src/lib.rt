// Laws of the check: its answer as a function of the tables is right, and there is only one right answer. There is no code here.
#![tactic(auto)]
