// A case is a number of lent output bytes (16 bits), and a choosing sheet or a text. Its line: number, sheet and state, the length, for a
// text the byte at fault, and every byte that the lent output holds after the call.
ghost use Rattle.std.specs.Prelude.{◌≡◌, ◌<◌, ◌≤◌, length};

use std::io;
use std::io::Print;

// Gives the output what it holds before the call.
fn fill(output: &mut [u8]) {
    for (place, byte) in output.iter_mut().enumerate() {
        *byte = 255 - (place % 256) as u8;
    }
}

// Lends so many bytes as a case asks for to what converts the bytes behind that number.
fn lend<F: FnOnce(&[u8], &mut [u8]) -> io::Result<()>>(case: &[u8], convert: F) -> io::Result<()>
    requires { F.IsAlwaysCallable convert }
{
    if case.len() < 2 {
        return Ok(());
    }
    let room = little_endian::word_at(case, 0) as usize;
    let mut output = [0u8; 65535];
    let output = &mut output[..room];
    fill(output);
    convert(&case[2..], output)
}

// Converts a choosing sheet, and prints the line of the case.
pub fn answer_choosing(rt: &impl Print, case: &[u8]) -> io::Result<()> {
    lend(case, |sheet, output| {
        let answer = convert::convert(sheet, output);
        print!(rt;
            "{} {} {} {}",
            answer.number, answer.sheet, answer.state, answer.length
        )?;
        framing::print_figures(rt, output)?;
        println!(rt; "")
    })
}

// Converts a text, and prints the line of the case.
pub fn answer_text(rt: &impl Print, case: &[u8]) -> io::Result<()> {
    lend(case, |text, output| {
        let answer = text_sheet::from_text(text, output);
        print!(rt;
            "{} {} {} {}",
            answer.number, answer.sheet, answer.state, answer.length
        )?;
        print!(rt; " {}", text_sheet::text_fault(text))?;
        framing::print_figures(rt, output)?;
        println!(rt; "")
    })
}
