// The rows of a rack: one way over them tests the owners and gathers the tally.
ghost use Rattle.std.specs.Prelude.{◌≡◌, ℕ, ◌+◌, ◌*◌, ◌<◌, ◌≤◌, T, length, get_or};
ghost use Rattle.model.specs.Shape.{low};
ghost use Rattle.model.specs.Bytes.{rank_at};
ghost use Rattle.model.proofs.Facts.{Says};
ghost use Rattle.audit.specs.Tally.{tallied, Holds, Added};
ghost use Rattle.audit.specs.Parts.{Right, RightBelow, Walked, OnceBelow, OnceIn, word_end, Row};

use crate::bits;
use layout::shape::{LEVELS, MOST, Rack};

// For each vertex, a count for each rank but the highest: one after the other, as the counts stand in a rack.
pub type Tally = [u16; LEVELS * MOST];

// Whether the edge v-w, which v of rank r owns, is owned rightly.
fn right(rack: &Rack, v: usize, r: usize, w: usize) -> bool
    requires v_lt_most { v < low.most }
    requires w_lt_most { w < low.most }
    requires r_value { r ≡ rank_at rack.now v }
    ensures { Says result (Right low rack.now v w) }
{
    layout::rank(rack, w) as usize <= r && !layout::owns(rack, w, v)
}

// Adds the edge v-w, whose owner has rank r, to the tally, at both its ends.
fn add(tally: &mut Tally, v: usize, w: usize, r: usize)
    requires v_lt_most { v < low.most }
    requires w_lt_most { w < low.most }
    requires r_lt_levels { r < low.levels }
    requires by_index { (x : ℕ) → x < low.most → get_or tally.old (low.levels * x + r) 0 < 65534 }
    ensures { Added low tally.old tally.new v w r }
{
    let there = LEVELS * w + r;
    tally[there] += 1;
    let here = LEVELS * v + r;
    tally[here] += 1;
}

// Walks one word of row v, of a rank r below the highest. The loop stays beside that of `bits::all`, since the tally changes from edge to edge, and a
// closure that changes it would make the contract there longer than this loop.
fn walk_word(rack: &Rack, tally: &mut Tally, v: usize, r: usize, k: usize) -> bool
    requires v_lt_most { v < low.most }
    requires r_value { r ≡ rank_at rack.now v }
    requires r_lt_levels { r < low.levels }
    requires k_bound { 64 * k < low.most }
    requires walked { Walked low rack.now tally.old v (64 * k) }
    ensures says { Says result (RightBelow low rack.now v (64 * k + 64)) }
    ensures walked_2 { T result → Walked low rack.now tally.new v (64 * k + 64) }
{
    let mut x = layout::words::word(rack, v, k);
    while x != 0 {
        let w = layout::walk::place(k, x);
        if !right(rack, v, r, w) {
            return false;
        }
        add(tally, v, w, r);
        x &= x - 1;
    }
    true
}

// Walks row v, of a rank r below the highest: all its words, since a loop with a fixed number of turns is written out by the compiler.
fn walk_row(rack: &Rack, tally: &mut Tally, v: usize, r: usize) -> bool
    requires v_lt_most { v < low.most }
    requires r_value { r ≡ rank_at rack.now v }
    requires r_lt_levels { r < low.levels }
    requires holds { Holds low tally.old (tallied low rack.now v) }
    ensures says { Says result (RightBelow low rack.now v low.most) }
    ensures holds_2 { T result → Holds low tally.new (tallied low rack.now (v + 1)) }
{
    for k in 0..layout::shape::WORDS {
        if !walk_word(rack, tally, v, r, k) {
            return false;
        }
    }
    true
}

// Walks one word of row v, of the highest rank: its edges add to no count, and only a second owner is looked for.
fn once_word(rack: &Rack, v: usize, k: usize) -> bool
    requires v_lt_most { v < low.most }
    requires k_bound { 64 * k < low.most }
    ensures { Says result (OnceIn low rack.now v k) }
{
    let word = layout::words::word(rack, v, k);
    bits::all(k, word, |w| !layout::owns(rack, w, v))
}

// Walks row v, of the highest rank, as far as v itself: the edges to higher numbers are seen from there.
fn once_row(rack: &Rack, v: usize) -> bool
    requires v_lt_most { v < low.most }
    ensures { Says result (OnceBelow low rack.now v (word_end v)) }
{
    (0..v / layout::shape::WORD + 1).all(|k| once_word(rack, v, k))
}

// Whether row v of a rack of n vertices is right, with the rows before it in the tally.
fn row(rack: &Rack, tally: &mut Tally, v: usize, n: usize) -> bool
    requires n_le_most { n ≤ low.most }
    requires v_lt_n { (v < n) × (rank_at rack.now v ≤ low.levels) }
    requires holds { Holds low tally.old (tallied low rack.now v) }
    ensures says { Says result (Row low rack.now n v) }
    ensures holds_2 { T result → Holds low tally.new (tallied low rack.now (v + 1)) }
{
    if !layout::words::owns_none_from(rack, v, n) {
        return false;
    }
    let r = layout::rank(rack, v) as usize;
    if r < LEVELS {
        walk_row(rack, tally, v, r)
    } else {
        once_row(rack, v)
    }
}

// Whether every row is right, with all of them in the tally.
pub fn all(rack: &Rack, tally: &mut Tally, n: usize) -> bool
    requires n_le_most { n ≤ low.most }
    requires by_index { (v : ℕ) → v < n → rank_at rack.now v ≤ low.levels }
    requires holds { Holds low tally.old (tallied low rack.now 0) }
    ensures says { Says result ((v : ℕ) → v < n → Row low rack.now n v) }
    ensures holds_2 { T result → Holds low tally.new (tallied low rack.now n) }
{
    for v in 0..n {
        if !row(rack, tally, v, n) {
            return false;
        }
    }
    true
}
