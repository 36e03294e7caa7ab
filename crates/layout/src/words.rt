// Whole words of a vertex's row: 64 places at once.
ghost use Rattle.std.specs.Prelude.{◌≡◌, ◌+◌, ◌<◌, ◌≤◌, ◌*◌, ltb};
ghost use Rattle.model.specs.Shape.{low};
ghost use Rattle.model.specs.Bytes.{owns_at};
ghost use Rattle.model.proofs.Facts.{Says};
ghost use Rattle.bitset.specs.Words.{Rest};
ghost use Rattle.layout.specs.Setters.{set_word};
ghost use Rattle.layout.specs.Rows.{OwnsNoneFrom};

use crate::shape;
use crate::shape::Rack;

// 64 places of the row of v, from 64 k on, as one word.
pub fn word(rack: &Rack, v: usize, k: usize) -> u64
    requires v_lt_most { v < low.most }
    requires k_bound { 64 * k < low.most }
    ensures { Rest (λ j. owns_at low rack.now v (64 * k + j)) 0 result }
{
    bitset::word(rack, shape::row_at(v) + 8 * k)
}

// Sets the 64 places of the row of v from 64 k on to the bits of x.
pub fn set_word(rack: &mut Rack, v: usize, k: usize, x: u64)
    requires v_lt_most { v < low.most }
    requires k_bound { 64 * k < low.most }
    ensures { rack.new ≡ set_word low rack.old v k x }
{
    bitset::set_word(rack, shape::row_at(v) + 8 * k, x)
}

// The vertices below n among the 64 from 64 k on, as one word.
pub fn below(n: usize, k: usize) -> u64
    requires { 64 * k < low.most }
    ensures { Rest (λ j. ltb (64 * k + j) n) 0 result }
{
    bitset::first_places(n.saturating_sub(shape::WORD * k))
}

// Whether the row of v is empty from word `from` on.
fn empty_from(rack: &Rack, v: usize, from: usize) -> bool
    requires v_lt_most { v < low.most }
    requires from_bound { 64 * from ≤ low.most }
    ensures { Says result (OwnsNoneFrom low rack.now v (64 * from)) }
{
    let mut all: u64 = 0;
    for k in from..shape::WORDS {
        all |= word(rack, v, k);
    }
    all == 0
}

// Whether v owns no edge to a vertex from n on: neither in the word in which n stands nor in those after it.
pub fn owns_none_from(rack: &Rack, v: usize, n: usize) -> bool
    requires v_lt_most { v < low.most }
    requires n_le_most { n ≤ low.most }
    ensures { Says result (OwnsNoneFrom low rack.now v n) }
{
    let k = n / shape::WORD;
    if shape::WORDS <= k {
        return true;
    }
    let x = word(rack, v, k);
    if x & below(n, k) != x {
        return false;
    }
    empty_from(rack, v, k + 1)
}
