// From the bytes of a profile's text to the bytes printed.
ghost use Rattle.std.specs.Prelude.{◌≡◌, true, not, List, ℕ, length};
ghost use Rattle.graphs.specs.Refusals.{Lent, short};
ghost use Rattle.refusals.specs.Numbers.{number_of};
ghost use Rattle.report.specs.Report.{lent_areas, walk_reading, number_to, report_of, told};

use crate::lines::print_walk;
use crate::walk::walk_whole;
use refusals::Refusal;
use texts::read_profile;

// Whether five areas of so many words and bytes are as long as stated.
fn are_long(after: usize, tail: usize, marks: usize, events: usize, output: usize) -> bool
    ensures { (a t k e o : List ℕ) → length a ≡ after → length t ≡ tail → length k ≡ marks → length e ≡ events → length o ≡ output → result ≡ not (short (lent_areas a t k e o)) }
{
    5000 <= after && 4000 <= tail && 5000 <= marks && 54003 <= events && 180066 <= output
}

// How a text is refused where an area is short: by 13, 12, 1, 2, else 3. It is read into no words.
fn short_refusal(text: &[u8], after: &mut [u16], tail: &mut [u16]) -> Refusal
    ensures number { (areas : List Lent) → short areas ≡ true → number_of result ≡ number_to (walk_reading areas text.now) }
    ensures links { after.new ≡ after.old }
    ensures tails { tail.new ≡ tail.old }
{
    match read_profile(text, &mut after[..0], &mut tail[..0]) {
        Err(refusal) => refusal,
        Ok(_) => Refusal::Area,
    }
}

// Prints the folded depth-first walk of the profile that a text says: its events, then elements reached, moves and circular; gives how many
// bytes are printed. Refused by 13, 12, 1, 2, 3 (all areas), 4, 6: then nothing is printed, and no word of any area changes.
pub fn walk_text(
    text: &[u8],
    after: &mut [u16],
    tail: &mut [u16],
    marks: &mut [u16],
    events: &mut [u16],
    output: &mut [u8],
) -> Result<usize, Refusal>
    ensures { told result after.new tail.new marks.new events.new output.new ≡ report_of text.now after.old tail.old marks.old events.old output.old }
{
    if !are_long(
        after.len(),
        tail.len(),
        marks.len(),
        events.len(),
        output.len(),
    ) {
        return Err(short_refusal(text, after, tail));
    }
    let profile = read_profile(text, after, tail)?;
    let t = walk_whole(profile, after, tail, marks, events);
    Ok(print_walk(t, events, output))
}
