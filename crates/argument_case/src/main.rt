// The program started with an argument, and with a job on standard input that would be accepted: it answers nothing.
#![tactic(auto)]

fn main(rt: HostRuntime) {
    job_input::answer_or_explain(&rt);
}
