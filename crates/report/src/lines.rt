// Printing: the lines of a walk, and of a refusal, as bytes in the output area.
// By hand and not by Display: each byte of a lent area is promised, at a place of it.
ghost use Rattle.std.specs.Prelude.{◌≡◌, [], ◌∷◌, ◌++◌, ◌+◌, ◌*◌, ◌≤◌, length, take};
ghost use Rattle.lists.specs.Words.{overlay, pasted};
ghost use Rattle.numbers.specs.Decimal.{written};
ghost use Rattle.refusals.specs.Numbers.{number_in};
ghost use Rattle.texts.specs.Text.{row};
ghost use Rattle.report.specs.Report.{line_number, line_bytes, line_left, bytes_in};
ghost use Rattle.report.specs.Inside.{rows, printed_from};

use crate::walk::Totals;
use numbers::write_number;
use refusals::Refusal;

// Writes bytes from place at on, and gives the place past them.
fn write_bytes(bytes: &[u8], output: &mut [u8], at: usize) -> usize
    requires { at + length bytes.now ≤ length output.old }
    ensures next { result ≡ at + length bytes.now }
    ensures words { output.new ≡ pasted at bytes.now output.old }
{
    let next = at + bytes.len();
    output[at..next].copy_from_slice(bytes);
    next
}

// Writes a number and the byte stop behind it from place at on, and gives the place past them.
fn write_field(x: u16, stop: u8, output: &mut [u8], at: usize) -> usize
    requires { at + 6 ≤ length output.old }
    ensures near { result ≤ at + 6 }
    ensures next { result ≡ at + length (written x ++ (stop ∷ [])) }
    ensures words { output.new ≡ pasted at (written x ++ (stop ∷ [])) output.old }
{
    let p = write_number(x, output, at);
    output[p] = stop;
    p + 1
}

// Writes a line of three numbers from place at on, and gives the place past it.
fn write_row(a: u16, b: u16, c: u16, output: &mut [u8], at: usize) -> usize
    requires { at + 18 ≤ length output.old }
    ensures near { result ≤ at + 18 }
    ensures next { result ≡ at + length (row (a ∷ b ∷ c ∷ [])) }
    ensures words { output.new ≡ pasted at (row (a ∷ b ∷ c ∷ [])) output.old }
{
    let p = write_field(a, b',', output, at);
    let q = write_field(b, b',', output, p);
    write_field(c, b'\n', output, q)
}

// Writes the lines of the first `made` events from place at on, and gives the place past them.
fn write_rows(events: &[u16], made: usize, output: &mut [u8], at: usize) -> usize
    requires { (3 * made ≤ length events.now) × (at + 18 * made ≤ length output.old) }
    ensures near { result ≤ at + 18 * made }
    ensures next { result ≡ at + length (rows (take (3 * made) events.now)) }
    ensures words { output.new ≡ pasted at (rows (take (3 * made) events.now)) output.old }
{
    let mut p = at;
    for event in events[..3 * made].chunks_exact(3) {
        p = write_row(event[0], event[1], event[2], output, p);
    }
    p
}

// Prints a walk: its events, then elements reached, moves and circular.
pub(crate) fn print_walk(t: Totals, events: &[u16], output: &mut [u8]) -> usize
    requires { (3 * t.events ≤ length events.now) × (18 * t.events + 66 ≤ length output.old) }
    ensures next { result ≡ length (printed_from events.now t) }
    ensures words { output.new ≡ overlay (printed_from events.now t) output.old }
{
    let p = write_bytes(b"event,reference,element\n", output, 0);
    let q = write_rows(events, t.events, output, p);
    let r = write_bytes(b"elements,moves,circular\n", output, q);
    write_row(t.elements, t.moves, t.circular, output, r)
}

// Prints the line of a refusal of any number: `refused,`, its number and a line feed, at the front of the output area. It is made aside, so that it is written
// whole or, refused by 3 where the area is shorter than the line, not at all.
// The number is any word: C hands one over, and `line_number` holds of each.
pub fn refusal_line(number: u16, output: &mut [u8]) -> Result<usize, Refusal>
    ensures number { number_in result ≡ line_number number output.old }
    ensures bytes { bytes_in result ≡ line_bytes number output.old }
    ensures output { output.new ≡ line_left number output.old }
{
    let mut line: [u8; 14] = [0; 14];
    let p = write_bytes(b"refused,", &mut line, 0);
    let q = write_field(number, b'\n', &mut line, p);
    if output.len() < q {
        return Err(Refusal::Area);
    }
    Ok(write_bytes(&line[..q], output, 0))
}
