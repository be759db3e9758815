// A case is the number of a sheet, a state, the first sheet behind its length, and the second. Its line: number, sheet, state and offset of
// the refusal; the sheet that the row is a part of, where it begins and how long it is; and its bytes.
use std::io;
use std::io::Print;

// Prints the line of a case.
pub fn answer_row(rt: &impl Print, case: &[u8]) -> io::Result<()> {
    if case.len() < 2 {
        return Ok(());
    }
    let sheet = case[0];
    let state = case[1];
    let Some((first, second)) = framing::split_part(&case[2..]) else {
        return Ok(());
    };
    let refusal = named_row::row_refusal(first, second, sheet, state);
    let part = named_row::row_part(first, second, sheet, state);
    print!(rt;
        "{} {} {} {} ",
        refusal.number, refusal.sheet, refusal.state, refusal.offset
    )?;
    print!(rt; "{} {} {}", part.sheet, part.offset, part.length)?;
    framing::print_figures(rt, named_row::row_bytes(first, second, sheet, state))?;
    println!(rt; "")
}
