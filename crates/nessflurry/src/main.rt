// The program: for the job file on standard input it prints one line, `accepted`, `refused` or `fails` with their numbers.
#![tactic(auto)]

fn main(rt: HostRuntime) {
    job_input::answer_or_explain(&rt);
}
