// The program on an input of 65,600 bytes, more than a job file may have: it is refused for its size, whatever its first bytes are.
#![tactic(auto)]

fn main(rt: HostRuntime) {
    job_input::answer_or_explain(&rt);
}
