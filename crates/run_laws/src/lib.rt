// Laws of one run: the run of 01 is the execution of 001. There is no code here.
#![tactic(auto)]
