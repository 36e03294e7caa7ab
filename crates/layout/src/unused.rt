// What is left of a rack beside the entries of its vertices: spare bytes and the entries from vertex n on.
ghost use Rattle.std.specs.Prelude.{◌≡◌, ℕ, suc, ◌<◌, ◌≤◌, ◌+◌, T, get_or};
ghost use Rattle.model.specs.Shape.{low};
ghost use Rattle.model.specs.Bytes.{no_mate, rank_at, mate_at, phi_at, owns_at, roster_at};
ghost use Rattle.model.proofs.Facts.{Says, Unused};

use crate::shape;
use crate::shape::Rack;

// "6 and 7 stay zero": whether they are.
pub fn spare_zero(rack: &Rack) -> bool
    ensures { Says result ((k : ℕ) → k < low.spare → get_or rack.now (6 + k) 0 ≡ 0) }
{
    bitset::all_are::<0>(&rack[shape::SPARE..shape::RANKS])
}

// Whether the rosters from rank r on are empty.
pub fn rosters_unused(rack: &Rack, r: usize) -> bool
    requires r_bound { r ≤ suc low.levels }
    ensures { Says result ((q : ℕ) → q < suc low.levels → r ≤ q → (v : ℕ) → v < low.most → T (roster_at low rack.now q v) → ⊥) }
{
    bitset::all_are::<0>(&rack[shape::ROSTERS + shape::ROW * r..shape::RACK_BYTES])
}

// Whether the entries from vertex n on are those of vertices that are none.
pub fn unused_from(rack: &Rack, n: usize) -> bool
    requires n_le_most { n ≤ low.most }
    ensures { Says result ((v : ℕ) → v < low.most → n ≤ v → Unused low rack.now v) }
{
    let ranks = &rack[shape::RANKS + n..shape::MATES];
    let mates = &rack[shape::MATES + 2 * n..shape::PHIS];
    let counts = &rack[shape::PHIS + shape::LEVELS * n..shape::ROWS];
    let rows = &rack[shape::ROWS + shape::ROW * n..shape::ROSTERS];
    bitset::all_are::<0>(ranks)
        && bitset::all_are::<255>(mates)
        && bitset::all_are::<0>(counts)
        && bitset::all_are::<0>(rows)
}
