// The rosters of a rack: who is in one has its rank, and together they are the vertices of the rack.
ghost use Rattle.std.specs.Prelude.{suc, ◌+◌, ◌*◌, ◌<◌, ◌≤◌};
ghost use Rattle.model.specs.Shape.{low};
ghost use Rattle.model.proofs.Facts.{Says};
ghost use Rattle.bitset.specs.Words.{Rest};
ghost use Rattle.audit.specs.Parts.{listed_in, RankedIn, AllRankedIn, RostersIn, Rosters};

use crate::bits;
use layout::shape::{LEVELS, Rack};

// Whether those in word k of the roster of rank r have that rank.
fn ranked_word(rack: &Rack, r: usize, k: usize) -> bool
    requires r_le_levels { r ≤ low.levels }
    requires k_bound { 64 * k < low.most }
    ensures { Says result (RankedIn low rack.now r k) }
{
    let word = layout::rosters::word(rack, r, k);
    bits::all(k, word, |v| layout::rank(rack, v) as usize == r)
}

// Whether those in word k of any roster have its rank.
fn ranked_words(rack: &Rack, k: usize) -> bool
    requires k_bound { 64 * k < low.most }
    ensures { Says result (AllRankedIn low rack.now k) }
{
    (0..LEVELS + 1).all(|r| ranked_word(rack, r, k))
}

// Who is in a roster, among the 64 vertices from 64 k on, as one word.
fn listed(rack: &Rack, k: usize) -> u64
    requires k_bound { 64 * k < low.most }
    ensures { Rest (λ j. listed_in low rack.now (suc low.levels) (64 * k + j)) 0 result }
{
    let mut x: u64 = 0;
    for q in 0..=LEVELS {
        x |= layout::rosters::word(rack, q, k);
    }
    x
}

// Whether the rosters of a rack of n vertices are right in word k. Where none is listed, no rank is to be looked up.
fn right_word(rack: &Rack, n: usize, k: usize) -> bool
    requires k_bound { 64 * k < low.most }
    ensures { Says result (RostersIn low rack.now n k) }
{
    let x = listed(rack, k);
    if x != layout::words::below(n, k) {
        return false;
    }
    if x == 0 {
        return true;
    }
    ranked_words(rack, k)
}

// Whether the rosters of a rack of n vertices are right.
pub fn all(rack: &Rack, n: usize) -> bool
    ensures { Says result (Rosters low rack.now n) }
{
    (0..layout::shape::WORDS).all(|k| right_word(rack, n, k))
}
