// A text read, a text walked and a refusal printed, as a controller calls for it: sizes and bytes are told in lent words. Each takes any input at
// all; where it is refused it changes nothing.
// Answers are numbers: `profile_walker` hands them to C as they are.
#![tactic(auto)]

ghost use Rattle.std.specs.Prelude.{◌≡◌};
ghost use Rattle.texts.specs.Loading.{reading, after_left, tail_left};
ghost use Rattle.report.specs.Report.{report_of, telling, line_number, line_bytes, line_left};
ghost use Rattle.text_words.specs.Told.{sized, handed_sizes, word_unless, told_in};

use report::{refusal_line, walk_text};
use texts::read_profile;

// `texts::read_profile`: the sizes and the start of a profile loaded are stored in three lent words.
pub fn read_profile_in_words(
    text: &[u8],
    after: &mut [u16],
    tail: &mut [u16],
    n: &mut u16,
    m: &mut u16,
    start: &mut u16,
) -> u16
    ensures answer { sized result n.new m.new start.new ≡ handed_sizes (reading text.now after.old tail.old) n.old m.old start.old }
    ensures links { after.new ≡ after_left (reading text.now after.old tail.old) after.old }
    ensures tails { tail.new ≡ tail_left (reading text.now after.old tail.old) tail.old }
{
    match read_profile(text, after, tail) {
        Err(refusal) => refusal.number(),
        Ok(profile) => {
            *n = profile.n;
            *m = profile.m;
            *start = profile.start.0;
            0
        }
    }
}

// `report::walk_text`: how many bytes are printed is stored in a lent word, where the text is walked.
pub fn walk_text_in_words(
    text: &[u8],
    after: &mut [u16],
    tail: &mut [u16],
    marks: &mut [u16],
    events: &mut [u16],
    output: &mut [u8],
    printed: &mut usize,
) -> u16
    ensures { telling result printed.new after.new tail.new marks.new events.new output.new ≡ told_in printed.old (report_of text.now after.old tail.old marks.old events.old output.old) }
{
    match walk_text(text, after, tail, marks, events, output) {
        Err(refusal) => refusal.number(),
        Ok(bytes) => {
            *printed = bytes;
            0
        }
    }
}

// `report::refusal_line`: how many bytes are printed is stored in a lent word, where there is room for the line.
pub fn refusal_line_in_words(number: u16, output: &mut [u8], printed: &mut usize) -> u16
    ensures number { result ≡ line_number number output.old }
    ensures printed { printed.new ≡ word_unless result (line_bytes number output.old) printed.old }
    ensures output { output.new ≡ line_left number output.old }
{
    match refusal_line(number, output) {
        Err(refusal) => refusal.number(),
        Ok(length) => {
            *printed = length;
            0
        }
    }
}
