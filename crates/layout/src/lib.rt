// The fields of the rack bytes: each accessor takes the whole buffer and answers or changes one field. Above this crate no offset and no
// size of the rack is written. The contracts cite the reading of the bytes in `model` and specs/; callers use the laws of proofs/.
// A vertex, a level and the number of vertices are plain numbers with a bound each, and no types of their own: every function indexes by them.
#![tactic(auto)]

ghost use Rattle.std.specs.Prelude.{◌≡◌, ◌||◌, ◌<◌, ◌≤◌, ◌+◌, ◌*◌, length, replicate};
ghost use Rattle.model.specs.Shape.{low, rack_length};
ghost use Rattle.model.specs.State.{low_with, empty};
ghost use Rattle.model.specs.Counting.{sum, count};
ghost use Rattle.bitset.specs.Row.{member};
ghost use Rattle.model.specs.Bytes.{size_at, edges_at, rank_at, mate_at, phi_at, owns_at, write};
ghost use Rattle.model.specs.Parts.{num_at};
ghost use Rattle.layout.specs.Setters.{entry_of, MateIs, set_num, set_edges, set_rank, set_mate, set_phi, own as owned, disown as disowned, blanked, enrolled};
ghost use Rattle.layout.specs.Rows.{degree_at, NthOwned};

pub mod rosters;
pub mod settings;
pub mod shape;
pub mod unused;
pub mod walk;
pub mod words;

use shape::Rack;

// The entry for the mate of a free vertex.
pub const NO_MATE: u16 = 65535;

// The number in the two bytes from `at` on, low byte first.
#[tactic(auto, unfolding(model::specs::Parts::num_at))]
fn number_at(rack: &Rack, at: usize) -> u16
    requires { at + 2 ≤ rack_length low }
    ensures { result ≡ num_at 2 rack.now at }
{
    u16::from_le_bytes([rack[at], rack[at + 1]])
}

// Sets the number in the two bytes from `at` on.
#[tactic(auto, unfolding(crate::specs::Setters::set_num))]
fn set_number(rack: &mut Rack, at: usize, x: u16)
    requires { at + 2 ≤ rack_length low }
    ensures { rack.new ≡ set_num 2 rack.old at x }
{
    let [first, second] = x.to_le_bytes();
    rack[at] = first;
    rack[at + 1] = second;
}

// The number of vertices.
#[tactic(auto, unfolding(model::specs::Bytes::size_at, model::specs::Parts::num_at))]
pub fn size(rack: &Rack) -> usize
    ensures { result ≡ size_at rack.now }
{
    number_at(rack, shape::SIZE) as usize
}

// The number of edges.
#[tactic(auto, unfolding(model::specs::Bytes::edges_at, model::specs::Parts::num_at))]
pub fn edges(rack: &Rack) -> u16
    ensures { result ≡ edges_at low rack.now }
{
    number_at(rack, shape::EDGES)
}

// Sets the number of edges.
#[tactic(auto, unfolding(crate::specs::Setters::set_edges, crate::specs::Setters::set_num))]
pub fn set_edges(rack: &mut Rack, x: u16)
    ensures { rack.new ≡ set_edges low rack.old x }
{
    set_number(rack, shape::EDGES, x);
}

// The rank of vertex v: its level plus 1.
#[tactic(auto, unfolding(model::specs::Bytes::rank_at))]
pub fn rank(rack: &Rack, v: usize) -> u8
    requires v_lt_most { v < low.most }
    ensures { result ≡ rank_at rack.now v }
{
    rack[shape::rank_at(v)]
}

// Sets the rank of vertex v, which passes from the roster of its old rank to that of the new one.
pub fn set_rank(rack: &mut Rack, v: usize, x: u8)
    requires v_lt_most { (v < low.most) × (rank_at rack.old v ≤ low.levels) × (x ≤ low.levels) }
    ensures { rack.new ≡ set_rank low rack.old v x }
{
    let old = rank(rack, v) as usize;
    bitset::remove(rack, shape::roster_at(old), v);
    bitset::insert(rack, shape::roster_at(x as usize), v);
    rack[shape::rank_at(v)] = x;
}

// The mate of vertex v, if it is not free.
pub fn mate(rack: &Rack, v: usize) -> Option<u16>
    requires v_lt_most { v < low.most }
    ensures { MateIs (mate_at low rack.now v) result }
{
    let entry = mate_entry(rack, v);
    if entry == NO_MATE { None } else { Some(entry) }
}

// The entry for the mate of vertex v, 65,535 if it is free: as it stands in the bytes, for the call that answers this number.
#[tactic(auto, unfolding(model::specs::Bytes::mate_at))]
pub fn mate_entry(rack: &Rack, v: usize) -> u16
    requires v_lt_most { v < low.most }
    ensures { result ≡ mate_at low rack.now v }
{
    number_at(rack, shape::mate_at(v))
}

// Sets the mate of vertex v, which is free if there is none.
#[tactic(auto, unfolding(crate::specs::Setters::set_mate))]
pub fn set_mate(rack: &mut Rack, v: usize, mate: Option<u16>)
    requires v_lt_most { v < low.most }
    ensures { rack.new ≡ set_mate low rack.old v (entry_of mate) }
{
    let entry = mate.unwrap_or(NO_MATE);
    set_number(rack, shape::mate_at(v), entry);
}

// The count of vertex v at j.
#[tactic(auto, unfolding(model::specs::Bytes::phi_at, model::specs::Parts::num_at))]
pub fn phi(rack: &Rack, v: usize, j: usize) -> u8
    requires v_lt_most { v < low.most }
    requires j_lt_levels { j < low.levels }
    ensures { result ≡ phi_at low rack.now v j }
{
    rack[shape::count_at(v, j)]
}

// Sets the count of vertex v at j.
#[tactic(auto, unfolding(crate::specs::Setters::set_phi, crate::specs::Setters::set_num))]
pub fn set_phi(rack: &mut Rack, v: usize, j: usize, x: u8)
    requires v_lt_most { v < low.most }
    requires j_lt_levels { j < low.levels }
    ensures { rack.new ≡ set_phi low rack.old v j x }
{
    rack[shape::count_at(v, j)] = x;
}

// Whether vertex v owns the edge v-w. As a place of its row, w's byte and bit stay the same from row to row.
pub fn owns(rack: &Rack, v: usize, w: usize) -> bool
    requires v_lt_most { v < low.most }
    requires w_lt_most { w < low.most }
    ensures { result ≡ owns_at low rack.now v w }
{
    let at = shape::row_at(v);
    bitset::test(&rack[at..at + shape::ROW], w)
}

// Whether there is an edge v-w: one of its ends owns it.
pub fn linked(rack: &Rack, v: usize, w: usize) -> bool
    requires v_lt_most { v < low.most }
    requires w_lt_most { w < low.most }
    ensures { result ≡ owns_at low rack.now v w || owns_at low rack.now w v }
{
    owns(rack, v, w) || owns(rack, w, v)
}

// v owns the edge v-w from now on. As for `owns`, w is a place of v's row, and its byte and bit stay the same from row to row.
pub fn own(rack: &mut Rack, v: usize, w: usize)
    requires v_lt_most { v < low.most }
    requires w_lt_most { w < low.most }
    ensures { rack.new ≡ owned low rack.old v w }
{
    bitset::insert(rack, shape::row_at(v), w)
}

// v no longer owns the edge v-w.
pub fn disown(rack: &mut Rack, v: usize, w: usize)
    requires v_lt_most { v < low.most }
    requires w_lt_most { w < low.most }
    ensures { rack.new ≡ disowned low rack.old v w }
{
    bitset::remove(rack, shape::row_at(v), w)
}

// How many places are in the row that begins at byte `at`, in two halves: each is few enough to be summed in a byte.
fn size_of_row(rack: &Rack, at: usize) -> usize
    requires row_bound { at + low.row ≤ rack_length low }
    ensures { result ≡ count (λ w. member rack.now (8 * at + w)) low.most }
{
    let middle = at + shape::ROW / 2;
    let end = at + shape::ROW;
    bitset::size(&rack[at..middle]) + bitset::size(&rack[middle..end])
}

// How many edges vertex v owns.
pub fn degree(rack: &Rack, v: usize) -> usize
    requires v_lt_most { v < low.most }
    ensures { result ≡ degree_at low rack.now v }
{
    size_of_row(rack, shape::row_at(v))
}

// The k-th vertex, from 0, to which v owns an edge.
pub fn nth_owned(rack: &Rack, v: usize, k: usize) -> usize
    requires v_lt_most { v < low.most }
    requires k_bound { k < degree_at low rack.now v }
    ensures { NthOwned low rack.now v k result }
{
    let at = shape::row_at(v);
    bitset::nth(&rack[at..at + shape::ROW], k)
}

// How many edges the vertices below n own together. Their rows stand one after the other, so that they are counted as one.
pub fn degrees(rack: &Rack, n: usize) -> usize
    requires n_le_most { n ≤ low.most }
    ensures { result ≡ sum (degree_at low rack.now) n }
{
    let end = shape::ROWS + shape::ROW * n;
    bitset::size_by_words(&rack[shape::ROWS..end])
}

// All bytes zero but for those of the mates: no mate is named.
fn blank(rack: &mut Rack)
    ensures { rack.new ≡ blanked low }
{
    rack.fill(0);
    rack[shape::MATES..shape::PHIS].fill(255);
}

// The rack of n vertices with no edge, but for its rosters, which are empty, and its settings.
fn found(rack: &mut Rack, n: u16)
    requires n_le_most { n ≤ low.most }
    ensures { rack.new ≡ enrolled low n 0 }
{
    blank(rack);
    set_number(rack, shape::SIZE, n);
}

// The rack of n vertices with no edge and with these settings.
pub fn clear(rack: &mut Rack, n: u16, growth: u8, top: u8)
    requires n_le_most { n ≤ low.most }
    ensures { rack.new ≡ write (empty (low_with growth top) n) }
{
    found(rack, n);
    rosters::enroll(rack, n as usize);
    settings::put(rack, growth, top);
}
