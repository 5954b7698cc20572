// Numbers by chance for cases, the same in every run: linear congruential steps in 32 bits, the higher half folded into the lower between
// them.
#![tactic(auto)]

ghost use Rattle.std.specs.Prelude.{◌≡◌, ◌<◌};

// The word with its higher half folded into its lower.
fn folded(x: u32) -> u32 {
    x ^ (x >> 16)
}

// What a seed gives at a place, both of 16 bits.
pub fn drawn(seed: u32, place: u32) -> u16
    ensures { result < 32768 }
{
    let x = folded((seed << 16) | place);
    let y = folded(x.wrapping_mul(2146121005));
    let z = folded(y.wrapping_mul(2221713035));
    (z & 0x7fff) as u16
}

// The draw of a seed at a place: a number below the bound, and 0 where that is 0.
pub fn draw(seed: u32, place: u32, bound: u16) -> u16
    ensures few { result < 32768 }
    ensures below { 0 < bound → result < bound }
    ensures none { bound ≡ 0 → result ≡ 0 }
{
    let number = drawn(seed, place);
    if bound == 0 { 0 } else { number % bound }
}
