// Whether rack bytes are sound: any bytes of a rack's length, damaged in any way. One way over the rows tests the owners and gathers a
// tally of the edges at each vertex, to which the counts are then held. The contracts cite specs/ and the facts of a sound rack in `model`.
// A vertex, its rank and the number of vertices stay plain numbers with a bound each: `layout` takes them so, and a struct would be taken apart at each call.
#![tactic(auto)]

ghost use Rattle.std.specs.Prelude.{◌≡◌, ℕ, ◌*◌, ◌<◌, ◌≤◌, length};
ghost use Rattle.model.specs.Shape.{low};
ghost use Rattle.model.specs.State.{InRange};
ghost use Rattle.model.specs.Bytes.{size_at, kind_at, rank_at};
ghost use Rattle.model.specs.Sound.{sound as sound_of};
ghost use Rattle.model.proofs.Facts.{Says, Mated};
ghost use Rattle.audit.specs.Parts.{Settings, Limits, SumsFit, Counted, Edges, Mate};

mod bits;
mod rosters;
mod rows;

use layout::shape::{LEVELS, MOST, Rack};
use rows::Tally;

// Whether the counts of v are right: up to the top level what the tally says, and below their thresholds, and 0 above. Level 0 is looked at first: it
// stands at every setting, and its threshold is 1.
fn counts_of(
    rack: &Rack,
    tally: &Tally,
    v: usize,
    bars: &[u16; LEVELS],
    standing: &[u16; LEVELS],
) -> bool
    requires v_lt_most { v < low.most }
    requires sums_fit { SumsFit low tally.now v }
    requires limits { Limits low rack.now bars.now standing.now }
    ensures { Says result (Counted low rack.now tally.now v) }
{
    if layout::phi(rack, v, 0) != 0 {
        return false;
    }
    if tally[LEVELS * v] != 0 {
        return false;
    }
    let mut total: u16 = 0;
    for j in 1..LEVELS {
        total += tally[LEVELS * v + j];
        let x = layout::phi(rack, v, j) as u16;
        if x != total * standing[j] {
            return false;
        }
        if bars[j] <= x {
            return false;
        }
    }
    true
}

// Whether the counts of every vertex are right.
fn counts(rack: &Rack, tally: &Tally, n: usize) -> bool
    requires in_range { InRange (kind_at low rack.now) }
    requires n_le_most { n ≤ low.most }
    requires by_index { (v : ℕ) → v < n → SumsFit low tally.now v }
    ensures { Says result ((v : ℕ) → v < n → Counted low rack.now tally.now v) }
{
    let bars = layout::settings::thresholds(rack);
    let standing = layout::settings::standing(rack);
    (0..n).all(|v| counts_of(rack, tally, v, &bars, &standing))
}

// Whether w is a right mate for v: it names v, stands at the same rank and is joined to v by an edge.
fn mated(rack: &Rack, v: usize, w: usize, n: usize) -> bool
    requires n_value { n ≡ size_at rack.now }
    requires n_le_most { n ≤ low.most }
    requires v_lt_n { v < n }
    ensures { Says result (Mated low rack.now v w) }
{
    if n <= w {
        return false;
    }
    if layout::mate(rack, w) != Some(v as u16) {
        return false;
    }
    if layout::rank(rack, w) != layout::rank(rack, v) {
        return false;
    }
    layout::linked(rack, v, w)
}

// Whether the mate of v is right, and v has none exactly if its rank is 0.
fn mate_of(rack: &Rack, v: usize, n: usize) -> bool
    requires n_value { n ≡ size_at rack.now }
    requires n_le_most { n ≤ low.most }
    requires v_lt_n { v < n }
    ensures { Says result (Mate low rack.now v) }
{
    let r = layout::rank(rack, v);
    match layout::mate(rack, v) {
        None => r == 0,
        Some(m) => r != 0 && mated(rack, v, m as usize, n),
    }
}

// Whether the mate of every vertex is right, and each has none exactly if its rank is 0.
fn mates(rack: &Rack, n: usize) -> bool
    requires n_value { n ≡ size_at rack.now }
    requires n_le_most { n ≤ low.most }
    ensures { Says result ((v : ℕ) → v < n → Mate low rack.now v) }
{
    (0..n).all(|v| mate_of(rack, v, n))
}

// Whether the settings are in their ranges, and no roster above the top level has a vertex.
fn settings(rack: &Rack) -> bool
    ensures { Says result (Settings low rack.now) }
{
    let growth = layout::settings::growth(rack);
    let top = layout::settings::top(rack);
    layout::settings::in_range(growth as u32, top as u32)
        && layout::unused::rosters_unused(rack, top as usize + 2)
}

// Whether the rows, the settings and the counts are right. The rows are walked alike at all settings, and these are looked at only then, so that nothing
// of them is kept meanwhile.
fn edges(rack: &Rack, n: usize) -> bool
    requires n_le_most { n ≤ low.most }
    requires by_index { (v : ℕ) → v < n → rank_at rack.now v ≤ low.levels }
    ensures { Says result (Edges low rack.now n) }
{
    let mut tally: Tally = [0; LEVELS * MOST];
    if !rows::all(rack, &mut tally, n) {
        return false;
    }
    if !settings(rack) {
        return false;
    }
    counts(rack, &tally, n)
}

// Whether the bytes are those of a sound rack.
pub fn sound(rack: &Rack) -> bool
    ensures { result ≡ sound_of low rack.now }
{
    let n = layout::size(rack);
    if n < 1 {
        return false;
    }
    if MOST < n {
        return false;
    }
    if !layout::unused::spare_zero(rack) {
        return false;
    }
    if !layout::unused::unused_from(rack, n) {
        return false;
    }
    if layout::degrees(rack, n) != layout::edges(rack) as usize {
        return false;
    }
    if !rosters::all(rack, n) {
        return false;
    }
    if !edges(rack, n) {
        return false;
    }
    mates(rack, n)
}
