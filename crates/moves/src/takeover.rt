// The first half of a rise: the owners of the riser's edges, found in the rosters, and what it takes from them. The steps are given the riser, the rank and
// what is missing one by one: a struct of these would have to hold the rack too, which each of them changes.
ghost use Rattle.std.specs.Prelude.{◌≡◌, ◌&&◌, ℕ, ◌+◌, ◌*◌, ◌<◌, ◌≤◌, T};
ghost use Rattle.model.specs.Shape.{low};
ghost use Rattle.model.specs.Counting.{count};
ghost use Rattle.model.specs.Bytes.{top_at, read, write};
ghost use Rattle.bitset.specs.Words.{Rest};
ghost use Rattle.moves.specs.Proper.{Ordered, Held, owner_at, took_from, took_over};
ghost use Rattle.moves.specs.Handing.{in_word};

use layout::shape::{Rack, WORD};
use layout::walk::Cursor;

// Of the vertices of rank q in word k, those that own an edge to u. They are at most `missing`, so that no more are looked for once so many
// are found.
fn owners(rack: &Rack, u: usize, q: usize, k: usize, missing: usize) -> u64
    requires held { Held low rack.now }
    requires u_bound { (u < (read low rack.now).n) × (q ≤ low.levels) × (64 * k < low.most) }
    requires missing_nonzero { (0 < missing) × (count (λ j. owner_at (read low rack.now) q u (64 * k + j)) 64 ≤ missing) }
    ensures { Rest (λ j. owner_at (read low rack.now) q u (64 * k + j)) 0 result }
{
    let mut left = missing;
    let mut found: u64 = 0;
    for w in Cursor::new(k, layout::rosters::word(rack, q, k)) {
        if layout::owns(rack, w, u) {
            found += 1u64 << (w % WORD);
            left -= 1;
            if left == 0 {
                return found;
            }
        }
    }
    found
}

// u takes its edges from the vertices of rank q in word k that own one, and how many are still missing then.
fn take_word(rack: &mut Rack, u: usize, q: usize, k: usize, missing: usize) -> usize
    requires held { Held low rack.old }
    requires u_bound { (u < (read low rack.old).n) × (q ≤ low.levels) × (64 * k < low.most) }
    requires missing_nonzero { (0 < missing) × (count (λ j. owner_at (read low rack.old) q u (64 * k + j)) 64 ≤ missing) }
    ensures rack_after { rack.new ≡ write (took_from (λ w. owner_at (read low rack.old) q u w && in_word k 64 w) u (read low rack.old)) }
    ensures j_value { result + count (λ j. owner_at (read low rack.old) q u (64 * k + j)) 64 ≡ missing }
{
    let x = owners(rack, u, q, k, missing);
    if x == 0 {
        return missing;
    }
    let row = layout::words::word(rack, u, k);
    layout::words::set_word(rack, u, k, row | x);
    let mut left = missing;
    for w in Cursor::new(k, x) {
        layout::disown(rack, w, u);
        left -= 1;
    }
    left
}

// The same of all vertices of rank q: the words of its roster, as far as an edge is missing.
fn take_rank(rack: &mut Rack, u: usize, q: usize, missing: usize) -> usize
    requires held { Held low rack.old }
    requires u_bound { (u < (read low rack.old).n) × (q ≤ low.levels) }
    requires missing_nonzero { (0 < missing) × (count (owner_at (read low rack.old) q u) (read low rack.old).n ≤ missing) }
    ensures rack_after { rack.new ≡ write (took_from (owner_at (read low rack.old) q u) u (read low rack.old)) }
    ensures rack_value { result + count (owner_at (read low rack.old) q u) (read low rack.old).n ≡ missing }
{
    let mut left = missing;
    for k in 0..layout::shape::WORDS {
        left = take_word(rack, u, q, k, left);
        if left == 0 {
            return 0;
        }
    }
    left
}

// u takes every edge to a vertex below level i: the first half of a rise. An owner's rank is at least u's and at most i, so that the search goes over
// the rosters of these ranks. Its count at i less the edges that it owns already says how many owners are still to be found: with the last it ends.
pub fn take_over(rack: &mut Rack, u: usize, i: usize)
    requires held { (Held low rack.old) × (Ordered (read low rack.old)) }
    requires u_bound { (u < (read low rack.old).n) × ((read low rack.old).rank u ≤ i) × (i ≤ top_at rack.old) }
    requires by_index { (w : ℕ) → T ((read low rack.old).owns u w) → (read low rack.old).rank w ≤ i }
    ensures { rack.new ≡ write (took_over i u (read low rack.old)) }
{
    let mut missing = layout::phi(rack, u, i) as usize - layout::degree(rack, u);
    for q in layout::rank(rack, u) as usize..i + 1 {
        if missing == 0 {
            return;
        }
        missing = take_rank(rack, u, q, missing);
    }
}
