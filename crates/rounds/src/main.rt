// Runs document 01's figures of moves, and of what a refused run leaves, over a lent memory and prints what came. The file 'stdout' has what
// the paper says.
#![tactic(auto)]

mod runs;

fn main(rt: HostRuntime) {
    runs::moves(&rt);
    runs::written(&rt);
}
