// A case is a sheet. Its line: number, state and offset of the refusal, or 0 0 0 for a whole sheet.
use std::io;
use std::io::Print;

// Prints the line of a case.
pub fn answer_sheet(rt: &impl Print, case: &[u8]) -> io::Result<()> {
    match sheet::check_sheet(case) {
        Ok(()) => println!(rt; "0 0 0"),
        Err(fault) => println!(rt; "{} {} {}", fault.number(), fault.state(), fault.offset()),
    }
}
