// The connecting program on a pair with one situation more than it lends records.
#![tactic(auto)]

use std::io;

fn main(rt: HostRuntime) -> io::Result<()> {
    connecting::connect_input(&rt)
}
