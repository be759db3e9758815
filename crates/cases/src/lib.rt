// Answers the cases that stand on standard input, each behind its length. tests/reference makes them and says what is to be printed for
// each; its README has the form of every kind.
#![tactic(auto)]

mod clients;
mod converting;
mod rows;
mod sheets;
mod steps;

pub use clients::answer_client;
pub use converting::{answer_choosing, answer_text};
pub use lent::{answer as answer_pair, answer_plan};
pub use rows::answer_row;
pub use runs::answer as answer_run;
pub use sheets::answer_sheet;
use std::io;
use std::io::Input;
pub use steps::answer_step;

// Prints the lines of every case, as what answers a case prints them. The space holds any case that its length can ask for. Nothing says
// that the input ends, so the cases are counted up to a number that no run uses up.
pub fn answer_all<F: Fn(&[u8]) -> io::Result<()>>(rt: &impl Input, answer: F) -> io::Result<()>
    requires { F.IsAlwaysCallable answer }
{
    let mut input = rt.reader();
    let mut space = [0u8; 65536];
    for _ in 0..u64::MAX {
        let Some(length) = framing::read_frame(&mut input, &mut space)? else {
            return Ok(());
        };
        answer(&space[..length])?;
    }
    Ok(())
}
