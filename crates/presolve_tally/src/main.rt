// The record program, run with the argument `tally`.
#![tactic(auto)]

fn main(rt: HostRuntime) {
    record_program::run(&rt);
}
