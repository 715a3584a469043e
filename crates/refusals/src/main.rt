// Runs document 01's figures of refused runs over a lent memory and prints what came. The file 'stdout' has what the paper says.
#![tactic(auto)]

mod runs;

fn main(rt: HostRuntime) {
    runs::short_memory(&rt);
    runs::refusals(&rt);
}
