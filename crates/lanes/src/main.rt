// Runs document 01's figures of branches, returns, addresses and refusals through `request` and `answer` and prints what came, with all that was
// asked of the bus and the byte that was answered. The file 'stdout' has what the paper says.
#![tactic(auto)]

mod single;

fn main(rt: HostRuntime) {
    single::long_branch(&rt);
    single::across_a_page(&rt);
    single::inside_a_page(&rt);
    single::returns(&rt);
    single::addresses(&rt);
    single::refused(&rt);
}
