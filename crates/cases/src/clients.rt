// A case is a client sheet behind its length, and a service sheet. Its line: number, sheet, state and offset of the refusal, and 1 for yes
// or 0.
use comply::Compliance;
use std::io;
use std::io::Print;

// Prints the line of a case.
pub fn answer_client(rt: &impl Print, case: &[u8]) -> io::Result<()> {
    let Some((client, service)) = framing::split_part(case) else {
        return Ok(());
    };
    let answer = Compliance::from(comply::complies(client, service));
    print!(rt; "{} {} {} ", answer.number, answer.sheet, answer.state)?;
    println!(rt; "{} {}", answer.offset, u8::from(answer.yes))
}
