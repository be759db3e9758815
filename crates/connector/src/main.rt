// The connecting program of document 01, "Cases". Its stored input is case M1.
#![tactic(auto)]

use std::io;

// A program has one stored input, so what differs from connector_full and connector_over in nothing else is a program of its own.
fn main(rt: HostRuntime) -> io::Result<()> {
    connecting::connect_input(&rt)
}
