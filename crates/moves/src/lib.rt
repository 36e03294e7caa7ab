// The moves of document 01 on the rack's bytes, and their steps. The contract of a move says that the bytes are then the writing of the
// definition's state, that of a step the same of an image whose counts are half adjusted. So `Held`, that the bytes are
// the writing of a proper state, stands in the contracts and is no invariant of a type: in the midst of a move it is not so, and every byte is promised.
#![tactic(auto)]

ghost use Rattle.std.specs.Prelude.{◌≡◌, ◌≢◌, ℕ, suc, ◌+◌, ◌*◌, ◌<◌, ◌≤◌, T};
ghost use Rattle.model.specs.Shape.{low};
ghost use Rattle.model.specs.Counting.{count};
ghost use Rattle.model.specs.State.{below, phi};
ghost use Rattle.model.specs.Bytes.{top_at, phi_at, image, fields_of, read, write};
ghost use Rattle.model.specs.Moves.{part as parted, rise as risen, marry as paired, hand_over};
ghost use Rattle.model.proofs.Facts.{Says};
ghost use Rattle.theory.specs.Handing.{handed_on};
ghost use Rattle.moves.specs.Proper.{Ordered, Held, ranked, RowBelow};
ghost use Rattle.moves.specs.Handing.{same_level, other_level, in_word, handed_in};
ghost use Rattle.moves.specs.Counts.{with_counts, step, CanStep, largest_count, none, recounted, lowered_counts, raised_counts};

mod takeover;

use layout::shape::Rack;
use layout::walk::Cursor;

// v's pair is parted; a free v stays as it is.
pub fn part(rack: &mut Rack, v: usize)
    requires held { Held low rack.old }
    requires v_bound { v < (read low rack.old).n }
    ensures { rack.new ≡ write (parted v (read low rack.old)) }
{
    let Some(m) = layout::mate(rack, v) else {
        return;
    };
    layout::set_mate(rack, m as usize, None);
    layout::set_mate(rack, v, None);
}

// u and y are mates.
pub fn pair(rack: &mut Rack, u: usize, y: usize)
    requires held { Held low rack.old }
    requires u_bound { (u < (read low rack.old).n) × (y < (read low rack.old).n) × (u ≢ y) }
    ensures { rack.new ≡ write (paired u y (read low rack.old)) }
{
    layout::set_mate(rack, u, Some(y as u16));
    layout::set_mate(rack, y, Some(u as u16));
}

// What a pass over the row of a waiting vertex answers: how many edges it handed on, and how many vertices are below.
#[derive(Clone, Copy)]
pub struct Split {
    pub handed: usize,
    pub below: usize,
}

// The pass over word k of v's row, with what it came to so far: what goes is also in the roster of v's level, the rest stays.
fn hand_word(rack: &mut Rack, v: usize, i: usize, k: usize, split: Split) -> Split
    requires held { Held low rack.old }
    requires v_bound { (v < (read low rack.old).n) × ((read low rack.old).rank v ≡ suc i) × (64 * k < low.most) }
    requires handed_le_most { (split.handed ≤ low.most) × (split.below ≤ low.most) }
    ensures rack_after { rack.new ≡ write (handed_in (in_word k 64) i v (read low rack.old)) }
    ensures handed_value { result.handed ≡ split.handed + count (λ j. same_level (read low rack.old) i v (64 * k + j)) 64 }
    ensures below_value { result.below ≡ split.below + count (λ j. other_level (read low rack.old) i v (64 * k + j)) 64 }
{
    let row = layout::words::word(rack, v, k);
    if row == 0 {
        return split;
    }
    let go = row & layout::rosters::word(rack, i + 1, k);
    let stay = row ^ go;
    for w in Cursor::new(k, go) {
        layout::own(rack, w, v);
    }
    layout::words::set_word(rack, v, k, stay);
    let handed = split.handed + bitset::word_ones(go);
    let below = split.below + bitset::word_ones(stay);
    Split { handed, below }
}

// v hands each edge that it owns to a vertex of its own level i to that vertex. W-204: "hand links on and count what is below in one pass over
// the board's row"; "The pass answers both numbers".
pub fn hand_over(rack: &mut Rack, v: usize, i: usize) -> Split
    requires held { (Held low rack.old) × (Ordered (read low rack.old)) }
    requires v_bound { (v < (read low rack.old).n) × ((read low rack.old).rank v ≡ suc i) }
    ensures rack_after { rack.new ≡ write (hand_over i v (read low rack.old)) }
    ensures handed_value { result.handed ≡ count (handed_on (read low rack.old) (hand_over i v (read low rack.old)) v) (read low rack.old).n }
    ensures below_value { result.below ≡ below (hand_over i v (read low rack.old)) v i }
{
    let n = layout::size(rack);
    let mut split = Split {
        handed: 0,
        below: 0,
    };
    for k in 0..n.div_ceil(layout::shape::WORD) {
        split = hand_word(rack, v, i, k, split);
    }
    split
}

// One more, or one less: a flag tells which, as in the definition that the contracts of the steps cite.
pub fn stepped(x: u16, more: bool) -> u16
    requires { CanStep more 65535 x }
    ensures { result ≡ step more x }
{
    if more { x + 1 } else { x - 1 }
}

// The counts of w at the k levels from j on are one more, or one less.
pub fn step_counts(rack: &mut Rack, w: usize, j: usize, k: usize, more: bool)
    requires w_lt_most { (w < low.most) × (j + k ≤ low.levels) }
    requires by_index { (x : ℕ) → j ≤ x → x < j + k → CanStep more (largest_count low) (phi_at low rack.old w x) }
    ensures { rack.new ≡ recounted low (step more) rack.old w j k }
{
    for x in 0..k {
        let c = layout::phi(rack, w, j + x);
        layout::set_phi(rack, w, j + x, stepped(c as u16, more) as u8);
    }
}

// The counts of the vertices to which u owns an edge lose u, which leaves its level for level i. Here and in `raise_counts` the walk reads the next
// word of the row as it comes to it, so that an iterator along the row would keep the rack lent while the counts in it change.
fn lower_counts(rack: &mut Rack, u: usize, i: usize)
    requires held { Held low rack.old }
    requires u_bound { (u < (read low rack.old).n) × ((read low rack.old).rank u ≤ i) × (i ≤ top_at rack.old) }
    requires row_below { RowBelow i u (read low rack.old) }
    ensures { rack.new ≡ image (with_counts (fields_of (read low rack.old)) (lowered_counts (read low rack.old) i u)) }
{
    let from = layout::rank(rack, u) as usize;
    let mut at = layout::walk::first(rack, u);
    while at.rest != 0 {
        let w = layout::walk::place(at.word, at.rest);
        let r = layout::rank(rack, w) as usize;
        let j = from.max(r);
        step_counts(rack, w, j, i + 1 - j, false);
        at = layout::walk::next(rack, u, at);
    }
}

// The counts of u below level k are 0.
fn zero_counts(rack: &mut Rack, u: usize, k: usize)
    requires u_lt_most { (u < low.most) × (k ≤ low.levels) }
    ensures { rack.new ≡ recounted low none rack.old u 0 k }
{
    for j in 0..k {
        layout::set_phi(rack, u, j, 0);
    }
}

// u stands at level i: the second half of a rise, once its edges to the vertices below i are its own.
fn enter(rack: &mut Rack, u: usize, i: usize)
    requires held { Held low rack.old }
    requires u_bound { (u < (read low rack.old).n) × ((read low rack.old).rank u ≤ i) × (i ≤ top_at rack.old) }
    requires row_below { RowBelow i u (read low rack.old) }
    ensures { rack.new ≡ write (ranked u (suc i) (read low rack.old)) }
{
    lower_counts(rack, u, i);
    zero_counts(rack, u, i + 1);
    layout::set_rank(rack, u, (i + 1) as u8);
}

// "Rise of u to i: u takes ownership of every link to a board then below i. Other owners stand."
pub fn rise(rack: &mut Rack, u: usize, i: usize)
    requires held { (Held low rack.old) × (Ordered (read low rack.old)) }
    requires u_bound { (u < (read low rack.old).n) × ((read low rack.old).rank u ≤ i) × (i ≤ top_at rack.old) }
    requires by_index { (w : ℕ) → T ((read low rack.old).owns u w) → (read low rack.old).rank w ≤ i }
    ensures { rack.new ≡ write (risen i u (read low rack.old)) }
{
    takeover::take_over(rack, u, i);
    enter(rack, u, i);
}

// The counts at i of the vertices to which v owns an edge gain v, which falls below level i; whether they all stay below the bar.
fn raise_counts(rack: &mut Rack, v: usize, i: usize, bar: u16) -> bool
    requires held { Held low rack.old }
    requires v_bound { (v < (read low rack.old).n) × ((read low rack.old).rank v ≡ suc i) × (i ≤ top_at rack.old) }
    requires row_below { RowBelow i v (read low rack.old) }
    ensures rack_after { rack.new ≡ image (with_counts (fields_of (read low rack.old)) (raised_counts (read low rack.old) i v)) }
    ensures says { Says result ((w : ℕ) → T ((read low rack.old).owns v w) → raised_counts (read low rack.old) i v w i < bar) }
{
    let mut low = true;
    let mut at = layout::walk::first(rack, v);
    while at.rest != 0 {
        let w = layout::walk::place(at.word, at.rest);
        let c = layout::phi(rack, w, i) + 1;
        layout::set_phi(rack, w, i, c);
        if bar <= c as u16 {
            low = false;
        }
        at = layout::walk::next(rack, v, at);
    }
    low
}

// "v falls to i-1", once it owns edges to vertices below i alone, k of them; whether their counts at i all stay below the bar.
pub fn fall(rack: &mut Rack, v: usize, i: usize, k: usize, bar: u16) -> bool
    requires held { Held low rack.old }
    requires v_bound { (v < (read low rack.old).n) × ((read low rack.old).rank v ≡ suc i) × (i ≤ top_at rack.old) }
    requires row_below { (RowBelow i v (read low rack.old)) × (k ≡ below (read low rack.old) v i) }
    ensures rack_after { rack.new ≡ write (ranked v i (read low rack.old)) }
    ensures says { Says result ((w : ℕ) → T ((read low rack.old).owns v w) → phi (ranked v i (read low rack.old)) w i < bar) }
{
    let low = raise_counts(rack, v, i, bar);
    layout::set_phi(rack, v, i, k as u8);
    layout::set_rank(rack, v, i as u8);
    low
}
