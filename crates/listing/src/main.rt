// The listing program, on standard input. Its run in the gate: W1.
#![tactic(auto)]

fn main(rt: HostRuntime) {
    listings::run(&rt, &mut rt.stdin());
}
