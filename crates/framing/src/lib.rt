// What programs read and print: bytes behind their length, and lines of figures. The stored cases are such frames, one behind the other.
#![tactic(auto)]

ghost use Rattle.std.specs.Prelude.{◌≡◌, ℕ, ◌+◌, ◌<◌, ◌≤◌, min, take, drop, length, IfOk, IfSome, OnErr, MatchOption};
ghost use Rattle.std.specs.Io.KnownBytes.{Consumes, IsAtEnd};
ghost use Rattle.model.specs.Bytes.{word};

use std::fmt::Display;
use std::io;
use std::io::{Print, Read};

// Where the part ends that stands behind its 16-bit length; at the end of the bytes, if the length goes beyond.
pub fn part_end(b: &[u8], at: usize) -> usize
    requires { at + 2 ≤ length b.now }
    ensures { result ≡ min (at + 2 + word b.now at) (length b.now) }
{
    (at + 2 + little_endian::word_at(b, at) as usize).min(b.len())
}

// The part that stands at the start of some bytes behind its 16-bit length, and the bytes behind it; none where there is no length.
pub fn split_part(b: &[u8]) -> Option<(&[u8], &[u8])>
    ensures { MatchOption result (length b.now < 2) (λ parts. (2 ≤ length b.now)
        × (parts.0.now ≡ take (word b.now 0) (drop 2 b.now)) × (parts.1.now ≡ drop (2 + word b.now 0) b.now)) }
{
    if b.len() < 2 {
        return None;
    }
    let end = part_end(b, 0);
    Some((&b[2..end], &b[end..]))
}

// Prints figures that stand behind others in a line, each behind a space.
pub fn print_figures<T: Display>(rt: &impl Print, figures: &[T]) -> io::Result<()> {
    for figure in figures {
        print!(rt; " {figure}")?;
    }
    Ok(())
}

// Reads until the space is full or the input ends, and answers how many bytes stand at the start of the space. What an error had not kept
// from being read stands at the start of the space too.
pub fn read_full<R: Read>(input: &mut R, space: &mut [u8]) -> io::Result<usize>
    ensures within { IfOk result (λ n. n ≤ length space.new) }
    ensures bytes { IfOk result (λ n. Consumes (R.remaining input.old) (R.remaining input.new) (take n space.new)) }
    ensures end { IfOk result (λ n. n < length space.new → IsAtEnd (R.remaining input.new)) }
    ensures err { OnErr result ((n : ℕ) × (n ≤ length space.new)
        × Consumes (R.remaining input.old) (R.remaining input.new) (take n space.new)) }
{
    let mut done = 0;
    while done < space.len() {
        let n = input.read(&mut space[done..])?;
        if n == 0 {
            break;
        }
        done += n;
    }
    Ok(done)
}

// Reads the next frame of an input to the start of the space, and answers how long it is; none where the input ends before its end, or the
// space does. An error leaves the space as long as it was, with any bytes in it.
pub fn read_frame<R: Read>(input: &mut R, space: &mut [u8]) -> io::Result<Option<usize>>
    ensures ok { IfOk result (λ frame. IfSome frame (λ n. n ≤ length space.new)) }
    ensures err { OnErr result (length space.new ≡ length space.old) }
{
    let mut head = [0u8; 2];
    if read_full(input, &mut head)? < 2 {
        return Ok(None);
    }
    let size = little_endian::word_at(&head, 0) as usize;
    if space.len() < size {
        return Ok(None);
    }
    let n = read_full(input, &mut space[..size])?;
    Ok(if n == size { Some(size) } else { None })
}
