// Cases as rows of standard input, for the test programs: what a row holds is read here, and what they print alike is printed here.
#![tactic(auto)]

pub mod printing;
pub mod reading;
