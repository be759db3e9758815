// The connecting program on a pair with as many situations as it lends records.
#![tactic(auto)]

use std::io;

fn main(rt: HostRuntime) -> io::Result<()> {
    connecting::connect_input(&rt)
}
