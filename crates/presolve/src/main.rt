// The record program.
#![tactic(auto)]

fn main(rt: HostRuntime) {
    record_program::run(&rt);
}
