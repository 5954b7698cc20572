// The reader of a profile's text. The text is judged whole before the first word is written.
#![tactic(auto)]

ghost use Rattle.std.specs.Prelude.{◌≡◌, List, map, ℕ, ◌+◌, ◌≤◌, ◌<◌, length, drop};
ghost use Rattle.std.proofs.Math.Option.{some};
ghost use Rattle.lists.specs.Words.{overlay, pasted};
ghost use Rattle.refusals.specs.Numbers.{number_in};
ghost use Rattle.texts.specs.Text.{Line, begins, and_then, field_at, line_at, lines_at, head_at};
ghost use Rattle.texts.specs.Loading.{after_of, line_out, lines_out, listing_number, reading, after_left, tail_left};
ghost use Rattle.numbers.specs.Answers.{number_found};
ghost use Rattle.texts.specs.Answers.{answered, answer_to, head_found, line_found, lines_found};
ghost use Rattle.texts.specs.Lines.{listed, Placed, CanLink};

use images::{Image, Vertex, check_sizes, is_vertex};
use numbers::{Number, read_number};
use refusals::Refusal;

// A profile loaded: its sizes and its start.
#[derive(Clone, Copy)]
pub struct Profile {
    pub n: u16,
    pub m: u16,
    pub start: Vertex,
}

// The first three lines: their values, and the place where the value lines begin.
#[derive(Clone, Copy)]
pub(crate) struct Head {
    n: u16,
    m: u16,
    start: u16,
    next: usize,
}

// A value line, and the place past it.
#[derive(Clone, Copy)]
pub(crate) struct ValueLine {
    from: u16,
    to: u16,
    next: usize,
}

// Whether the names stand in the text from place at on.
fn begins_with(text: &[u8], at: usize, names: &[u8]) -> bool
    ensures { result ≡ begins names.now (drop at text.now) }
{
    text.get(at..).unwrap_or(&[]).starts_with(names)
}

// A number from place at on with the byte stop behind it.
fn read_field(text: &[u8], at: usize, stop: u8) -> Option<Number>
    requires { 0 < stop }
    ensures { number_found result ≡ field_at text.now at stop }
{
    let Number { value, next } = read_number(text, at)?;
    let byte = *text.get(next)?;
    if byte != stop {
        return None;
    }
    Some(Number {
        value,
        next: next + 1,
    })
}

// The value line from place at on.
fn read_line(text: &[u8], at: usize) -> Option<ValueLine>
    ensures { line_found result ≡ line_at text.now at }
{
    let from = read_field(text, at, b',')?;
    let to = read_field(text, from.next, b'\n')?;
    Some(ValueLine {
        from: from.value,
        to: to.value,
        next: to.next,
    })
}

// The first three lines.
fn read_head(text: &[u8]) -> Option<Head>
    ensures { head_found result ≡ head_at text.now }
{
    if !begins_with(text, 0, b"elements,references,start\n") {
        return None;
    }
    let n = read_field(text, 26, b',')?;
    let m = read_field(text, n.next, b',')?;
    let start = read_field(text, m.next, b'\n')?;
    if !begins_with(text, start.next, b"from,to\n") {
        return None;
    }
    Some(Head {
        n: n.value,
        m: m.value,
        start: start.value,
        next: start.next + 8,
    })
}

// Whether the from or the to of a value line is no vertex.
fn line_out(n: u16, line: ValueLine) -> bool
    ensures { result ≡ line_out n (record { from = line.from; to = line.to }) }
{
    !(is_vertex(n, Vertex(line.from)) && is_vertex(n, Vertex(line.to)))
}

// Whether a from or to of the m value lines from place at on is no vertex (6); out of form where there are not just m lines.
fn judge_lines(text: &[u8], at: usize, n: u16, m: u16) -> Option<bool>
    ensures { lines_found result ≡ and_then (lines_at text.now at m) (λ ls. some (lines_out n ls)) }
{
    let mut out = false;
    let mut next = at;
    for _ in 0..m {
        let line = read_line(text, next)?;
        out |= line_out(n, line);
        next = line.next;
    }
    if next != text.len() {
        return None;
    }
    Some(out)
}

// Refused by the first of 1, 2, 3, 4 and 6 that is true of a text in form, with the image's sizes and areas; out says whether 6 is.
fn check_listing(g: &Image, start: u16, out: bool) -> Result<(), Refusal>
    ensures { (ls : List Line) → out ≡ lines_out g.now.n ls → number_in result ≡ listing_number (listed g.now.n g.now.m start ls) g.now.after.now g.now.tail.now }
{
    check_sizes(g.n, g.m)?;
    if !g.is_long() {
        return Err(Refusal::Area);
    }
    let placed = is_vertex(g.n, Vertex(start));
    if !placed {
        return Err(Refusal::Vertex);
    }
    if out {
        return Err(Refusal::Tail);
    }
    Ok(())
}

// Writes the from of each value line as its edge's after word, and the to as its tail word.
fn write_lines(text: &[u8], at: usize, n: u16, m: u16, after: &mut [u16], tail: &mut [u16])
    requires { (n + m ≤ length after.old) × (m ≤ length tail.old) }
    ensures { (ls : List Line) → lines_at text.now at m ≡ some ls → (after.new ≡ pasted n (map (λ l. l.from) ls) after.old) × (tail.new ≡ overlay (map (λ l. l.to) ls) tail.old) }
{
    let first = n as usize;
    let mut next = at;
    // By index: of words that are written through two areas zipped a proof would know nothing afterwards.
    for k in 0..m as usize {
        let Some(line) = read_line(text, next) else {
            return;
        };
        after[first + k] = line.from;
        tail[k] = line.to;
        next = line.next;
    }
}

// Makes the lists, where each edge's after word is the from of its value line: from the last line to the first, an edge is put in
// front of its vertex's list, so that lists keep line order. The vertices' words are cleared first, so that every list is empty.
fn link(n: u16, m: u16, after: &mut [u16])
    requires { CanLink n m after.old }
    ensures { (start : ℕ) (ls : List Line) (area : List ℕ) → Placed n m ls area after.old → after.new ≡ overlay (after_of (listed n m start ls)) area }
{
    after[..n as usize].fill(0);
    // By number: two words of one area are written in each turn.
    for k in (0..m).rev() {
        let e = (n + k) as usize;
        let v = after[e] as usize - 1;
        after[e] = after[v];
        after[v] = n + k + 1;
    }
}

// Reads a profile's text into the areas of a linked image. Refused by 13, 12, 1, 2, 3, 4, 6; a refused text changes no word.
pub fn read_profile(text: &[u8], after: &mut [u16], tail: &mut [u16]) -> Result<Profile, Refusal>
    ensures answer { answered result ≡ answer_to (reading text.now after.old tail.old) }
    ensures links { after.new ≡ after_left (reading text.now after.old tail.old) after.old }
    ensures tails { tail.new ≡ tail_left (reading text.now after.old tail.old) tail.old }
{
    if text.len() > 65536 {
        return Err(Refusal::Length);
    }
    let Head { n, m, start, next } = read_head(text).ok_or(Refusal::Form)?;
    let out = judge_lines(text, next, n, m).ok_or(Refusal::Form)?;
    let image = Image {
        n,
        m,
        after: &*after,
        tail: &*tail,
    };
    check_listing(&image, start, out)?;
    write_lines(text, next, n, m, after, tail);
    link(n, m, after);
    let start = Vertex(start);
    Ok(Profile { n, m, start })
}
