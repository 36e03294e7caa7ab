// The rosters: of each rank, the vertices that have it. `word` and `size` are those of a vertex's row at another place, each in one line: one function for
// both would promise of the bytes what neither reading of them says.
ghost use Rattle.std.specs.Prelude.{◌≡◌, ◌+◌, ◌<◌, ◌≤◌, ◌*◌};
ghost use Rattle.model.specs.Shape.{low};
ghost use Rattle.model.specs.Counting.{count};
ghost use Rattle.model.specs.State.{empty};
ghost use Rattle.model.specs.Bytes.{roster_at, write};
ghost use Rattle.bitset.specs.Words.{Rest};
ghost use Rattle.layout.specs.Setters.{unset, enrolled};

use crate::shape;
use crate::shape::Rack;

// 64 places of the roster of rank r, from 64 k on, as one word.
pub fn word(rack: &Rack, r: usize, k: usize) -> u64
    requires r_le_levels { r ≤ low.levels }
    requires k_bound { 64 * k < low.most }
    ensures { Rest (λ j. roster_at low rack.now r (64 * k + j)) 0 result }
{
    bitset::word(rack, shape::roster_at(r) + 8 * k)
}

// How many vertices are in the roster of rank r.
pub fn size(rack: &Rack, r: usize) -> usize
    requires r_le_levels { r ≤ low.levels }
    ensures { result ≡ count (roster_at low rack.now r) low.most }
{
    crate::size_of_row(rack, shape::roster_at(r))
}

// The n vertices of a rack with no edge enter the roster of rank 0.
pub fn enroll(rack: &mut Rack, n: usize)
    requires n_le_most { n ≤ low.most }
    requires rack_value { rack.old ≡ enrolled low n 0 }
    ensures { rack.new ≡ write (empty (unset low) n) }
{
    let at = shape::roster_at(0);
    for k in 0..shape::WORDS {
        bitset::set_word(rack, at + 8 * k, crate::words::below(n, k));
    }
}
