// `walk`: reads a profile's text from standard input and prints its folded depth-first walk, or `refused,` and the number of a text that is
// refused. What is printed is what `report::walk_text` and `report::refusal_line` promise; here it is only read and written.
#![tactic(auto)]

ghost use Rattle.std.specs.Prelude.{◌≤◌, ◌<◌, length, take, IfOk};
ghost use Rattle.std.specs.Io.KnownBytes.{Consumes, IsAtEnd};

use refusals::Refusal;
use std::io;
use std::io::Read;

// Prints the line of a refusal; 14 bytes have room for that of any number.
fn print_refusal(rt: &impl Print, refusal: Refusal) -> io::Result<()> {
    let mut line = [0u8; 14];
    let bytes = report::refusal_line(refusal.number(), &mut line).unwrap();
    rt.write_all(&line[..bytes])
}

// Prints the walk of a text, or its refusal.
fn print_walk(rt: &impl Print, text: &[u8]) -> io::Result<()> {
    let mut after = [0u16; 5000];
    let mut tail = [0u16; 4000];
    let mut marks = [0u16; 5000];
    let mut events = [0u16; 54003];
    let mut output = [0u8; 180066];
    let printed = report::walk_text(
        text,
        &mut after,
        &mut tail,
        &mut marks,
        &mut events,
        &mut output,
    );
    match printed {
        Ok(bytes) => rt.write_all(&output[..bytes]),
        Err(refusal) => print_refusal(rt, refusal),
    }
}

// Reads until the area is full or the input ends, and returns how many bytes were read: they stand at the area's start.
// `read_exact` fails where the input ends first, and `read_to_end` takes memory.
fn read_full<R: Read>(input: &mut R, text: &mut [u8]) -> io::Result<usize>
    ensures within { IfOk result (λ n. n ≤ length text.new) }
    ensures bytes { IfOk result (λ n. Consumes (R.remaining input.old) (R.remaining input.new) (take n text.new)) }
    ensures ended { IfOk result (λ n. n < length text.new → IsAtEnd (R.remaining input.new)) }
{
    let mut read: usize = 0;
    while read < text.len() {
        let n = input.read(&mut text[read..])?;
        if n == 0 {
            break;
        }
        read += n;
    }
    Ok(read)
}

// One byte more than the longest text, so that 13 is seen.
fn main(rt: HostRuntime) -> io::Result<()> {
    let mut text = [0u8; 65537];
    let n = read_full(&mut rt.stdin(), &mut text)?;
    print_walk(&rt, &text[..n])
}
