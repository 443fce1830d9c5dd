// Reads standard input as a Python module and prints its tokens: kind, start, end, line of each, then code, count, place, detail.
// Input of more than 16,384 bytes prints `1 0 0 0`; where more than 4,000 records are needed, the answer stands alone, with code 4.

#![tactic(auto)]

use std::io;

fn main(rt: HostRuntime) -> io::Result<()> {
    printing::print_input(&mut rt.stdin(), &mut rt.stdout())
}
