// Profiles: an image checked, a text read, an image converted, a text walked, a refusal printed.
ghost use Rattle.std.specs.Prelude.{◌≡◌, []};
ghost use Rattle.lists.specs.Words.{overlay};
ghost use Rattle.graphs.specs.ArrayForm.{array_of, numbers_of};
ghost use Rattle.graphs.specs.Refusals.{image_number, unless_refused};
ghost use Rattle.images.specs.Checking.{image};
ghost use Rattle.arrays.specs.Arrays.{convert_number};
ghost use Rattle.texts.specs.Loading.{reading, after_left, tail_left};
ghost use Rattle.report.specs.Report.{report_of, telling, line_number, line_bytes, line_left};
ghost use Rattle.text_words.specs.Told.{sized, handed_sizes, word_unless, told_in};

use arrays::to_array;
use images::{Image, check_image};
use refusals::number;

// `images::check_image`.
#[unsafe(no_mangle)]
pub extern "C" fn profile_walker_check_image(n: u16, m: u16, after: &[u16], tail: &[u16]) -> u16
    ensures { result ≡ image_number (image n m after.now tail.now) [] }
{
    let g = Image { n, m, after, tail };
    number(check_image(&g))
}

// `arrays::to_array`.
#[unsafe(no_mangle)]
pub extern "C" fn profile_walker_to_array(
    n: u16,
    m: u16,
    after: &[u16],
    tail: &[u16],
    firsts: &mut [u16],
    tails: &mut [u16],
    numbers: &mut [u16],
) -> u16
    ensures number { result ≡ convert_number (image n m after.now tail.now) firsts.old tails.old numbers.old }
    ensures firsts { firsts.new ≡ unless_refused result (overlay (array_of (image n m after.now tail.now)).firsts firsts.old) firsts.old }
    ensures tails { tails.new ≡ unless_refused result (overlay (array_of (image n m after.now tail.now)).tails tails.old) tails.old }
    ensures numbers { numbers.new ≡ unless_refused result (overlay (numbers_of (image n m after.now tail.now)) numbers.old) numbers.old }
{
    let g = Image { n, m, after, tail };
    number(to_array(&g, firsts, tails, numbers))
}

// `text_words::read_profile_in_words`.
#[unsafe(no_mangle)]
pub extern "C" fn profile_walker_read_profile(
    text: &[u8],
    after: &mut [u16],
    tail: &mut [u16],
    n: &mut u16,
    m: &mut u16,
    start: &mut u16,
) -> u16
    ensures answer { sized result n.new m.new start.new ≡ handed_sizes (reading text.now after.old tail.old) n.old m.old start.old }
    ensures links { after.new ≡ after_left (reading text.now after.old tail.old) after.old }
    ensures tails { tail.new ≡ tail_left (reading text.now after.old tail.old) tail.old }
{
    text_words::read_profile_in_words(text, after, tail, n, m, start)
}

// `text_words::walk_text_in_words`.
#[unsafe(no_mangle)]
pub extern "C" fn profile_walker_walk_text(
    text: &[u8],
    after: &mut [u16],
    tail: &mut [u16],
    marks: &mut [u16],
    events: &mut [u16],
    output: &mut [u8],
    printed: &mut usize,
) -> u16
    ensures { telling result printed.new after.new tail.new marks.new events.new output.new ≡ told_in printed.old (report_of text.now after.old tail.old marks.old events.old output.old) }
{
    text_words::walk_text_in_words(text, after, tail, marks, events, output, printed)
}

// `text_words::refusal_line_in_words`.
#[unsafe(no_mangle)]
pub extern "C" fn profile_walker_refusal_line(
    number: u16,
    output: &mut [u8],
    printed: &mut usize,
) -> u16
    ensures number { result ≡ line_number number output.old }
    ensures printed { printed.new ≡ word_unless result (line_bytes number output.old) printed.old }
    ensures output { output.new ≡ line_left number output.old }
{
    text_words::refusal_line_in_words(number, output, printed)
}
