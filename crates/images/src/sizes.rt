// The sizes of an image, of an array form, of a state.
ghost use Rattle.std.specs.Prelude.{◌≡◌};
ghost use Rattle.graphs.specs.Refusals.{first_of, sizes_out};
ghost use Rattle.refusals.specs.Numbers.{number_in};

use refusals::Refusal;

// Refused by 1 and 2: no vertex or over 1,000, over 4,000 edges.
pub fn check_sizes(n: u16, m: u16) -> Result<(), Refusal>
    ensures { number_in result ≡ first_of (sizes_out n m) }
{
    if n == 0 || n > 1000 {
        return Err(Refusal::Vertices);
    }
    if m > 4000 {
        return Err(Refusal::Edges);
    }
    Ok(())
}
