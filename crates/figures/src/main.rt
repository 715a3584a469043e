// Runs document 01's figures of arithmetic and widths through `request` and `answer` and prints what came, with all that was asked of the bus
// and the byte that was answered. The file 'stdout' has what the paper says.
#![tactic(auto)]

mod single;

fn main(rt: HostRuntime) {
    single::decimal_sums(&rt);
    single::decimal_bytes(&rt);
    single::binary(&rt);
    single::exchange(&rt);
    single::widths(&rt);
    single::pairs(&rt);
}
