// Numbers by chance, in the sizes that the cases ask for.

// What a seed gives at a place: a number below 32,768.
fn drawn(seed: u16, place: u16) -> u16 {
    draws::drawn(seed.into(), place.into())
}

// The draw of a seed at a place: a number below k, and 0 where k is 0.
pub(crate) fn draw(seed: u16, place: u16, k: u16) -> u16 {
    draws::draw(seed.into(), place.into(), k)
}

// The draw of a seed at a place: a place or a length below k, and 0 where k is 0.
pub(crate) fn draw_below(seed: u16, place: u16, k: usize) -> usize {
    usize::from(drawn(seed, place)).checked_rem(k).unwrap_or(0)
}

// The draw of a seed at a place: a number from 1 to k.
pub(crate) fn draw_from_one(seed: u16, place: u16, k: u16) -> u16 {
    draw(seed, place, k).saturating_add(1)
}

// The draw of a seed at a place and the next: any word.
pub(crate) fn draw_word(seed: u16, place: u16) -> u16 {
    let high = draw(seed, place, 256);
    high.wrapping_mul(256) | draw(seed, place.wrapping_add(1), 256)
}

// One of some bytes.
pub(crate) fn pick(seed: u16, place: u16, bytes: &[u8]) -> u8 {
    let at = draw_below(seed, place, bytes.len());
    bytes.get(at).copied().unwrap_or(0)
}
