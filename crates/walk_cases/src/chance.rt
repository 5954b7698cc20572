// The places of numbers by chance.
ghost use Rattle.std.specs.Prelude.{◌<◌};

// The places of the draws of a seed. Edge i of a profile has 2 i and 2 i + 1: below 9,000.
//
// Of a small profile: how many vertices and edges it has, and its start.
pub(crate) const SIZE: u32 = 9001;

pub(crate) const EDGES: u32 = 9002;

pub(crate) const START: u32 = 9003;

// Of a damage: the word that is damaged, the first edge that may come in its place, and what does.
pub(crate) const DAMAGED: u32 = 9010;

pub(crate) const FIRST_EDGE: u32 = 9011;

pub(crate) const DAMAGE: u32 = 9012;

// Of a number that is lessened: which it is, and by how much.
pub(crate) const LESSENED: u32 = 9020;

pub(crate) const LESS: u32 = 9021;

// Of a list: its form, its only vertex, and how many words it has by chance.
pub(crate) const FORM: u32 = 9030;

pub(crate) const ONE: u32 = 9031;

pub(crate) const LENGTH: u32 = 9040;

// From here on: for each vertex, whether it is on the list; for each word by chance, one bit and the others.
pub(crate) const LISTED: u32 = 9100;

pub(crate) const BIT: u32 = 9200;

pub(crate) const WORD: u32 = 9300;

// The draw of a seed at a place, both below 65,536: a number below k, and 0 where k is 0.
pub(crate) fn draw(seed: u32, place: u32, k: u16) -> u16
    ensures { result < 32768 }
{
    draws::draw(seed, place, k)
}
