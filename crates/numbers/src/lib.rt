// Numbers of the text.
#![tactic(auto)]

ghost use Rattle.std.specs.Prelude.{◌≡◌, length, take_while};
ghost use Rattle.numbers.specs.Decimal.{decimal_length, written, put_at, past_at, is_digit, number_at};
ghost use Rattle.numbers.specs.Answers.{number_found};

// A number's digits in a text, leading zeros too, are five at most.
const MOST_DIGITS: usize = 5;

// A number, and the place past it.
#[derive(Clone, Copy)]
pub struct Number {
    pub value: u16,
    pub next: usize,
}

// How many digits x has: one more than the times it can be divided by ten before it is below ten.
// By division, as the formula is stated.
fn decimal_length(x: u16) -> usize
    ensures { result ≡ decimal_length x }
{
    let mut part = x;
    let mut k: usize = 1;
    while part >= 10 {
        part /= 10;
        k += 1;
    }
    k
}

// Writes x into the area from place at on, where there is room for it, and gives the place past it; else writes nothing and gives at.
// The call cannot be refused: without room its answer is at, as `past_at` says.
pub fn write_number(x: u16, area: &mut [u8], at: usize) -> usize
    ensures next { result ≡ past_at (written x) at area.old }
    ensures words { area.new ≡ put_at (written x) at area.old }
{
    let k = decimal_length(x);
    if area.len() < at || area.len() - at < k {
        return at;
    }
    let mut rest = x;
    // By index: of bytes that are written through the area reversed a proof would know nothing afterwards.
    for i in (0..k).rev() {
        area[at + i] = b'0' + (rest % 10) as u8;
        rest /= 10;
    }
    at + k
}

// How many digits the text begins with.
fn digits_ahead(text: &[u8]) -> usize
    ensures { result ≡ length (take_while is_digit text.now) }
{
    text.iter().take_while(|b| b.is_ascii_digit()).count()
}

// The number in the text from place at on, and the place past its last digit. Digits are read while there are any, so that what
// follows a number is no digit; the first may be zeros, but a sixth digit and a value over 65,535 are out of form.
pub fn read_number(text: &[u8], at: usize) -> Option<Number>
    ensures { number_found result ≡ number_at text.now at }
{
    let rest = text.get(at..)?;
    // One digit too many is enough to tell: what stands behind it is not read.
    let most = rest.len().min(MOST_DIGITS + 1);
    let count = digits_ahead(&rest[..most]);
    if count == 0 || count > MOST_DIGITS {
        return None;
    }
    let digits = &rest[..count];
    let mut value: u32 = 0;
    // By hand: `parse` would ask for a `str`, and the digits are tested already.
    for digit in digits {
        value = value * 10 + u32::from(*digit - b'0');
    }
    let value = u16::try_from(value).ok()?;
    let next = at + count;
    Some(Number { value, next })
}
