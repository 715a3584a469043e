// Runs document 01's figures of a trace and of a session over a lent memory and prints what came. The file 'stdout' has what the paper says.
#![tactic(auto)]

mod benches;

fn main(rt: HostRuntime) {
    benches::traces(&rt);
    benches::sessions(&rt);
}
