// Where the fields of a rack stand. Every size and offset of the rack is written here, and nowhere above this crate.
ghost use Rattle.std.specs.Prelude.{◌<◌, ◌≤◌, ◌+◌, ◌*◌};
ghost use Rattle.model.specs.Shape.{low, ranks_from, mates_from, phis_from, rows_from, rosters_from};
ghost use Rattle.layout.specs.Setters.{NumberAt};

// The most vertices that a rack has, the levels from 0 on, and the bytes of a row or a roster.
pub const MOST: usize = 256;

pub const LEVELS: usize = 4;

pub const ROW: usize = 32;

// The places of a word, and the words of a row or a roster.
pub const WORD: usize = 64;

pub const WORDS: usize = MOST / WORD;

// Where the parts begin: n, the number of edges, the settings, the spare bytes, the ranks, the mates, the counts, the rows, the rosters.
pub const SIZE: usize = 0;

pub const EDGES: usize = 2;

pub const GROWTH: usize = 4;

pub const TOP: usize = 5;

pub const SPARE: usize = 6;

pub const RANKS: usize = 8;

pub const MATES: usize = RANKS + MOST;

pub const PHIS: usize = MATES + 2 * MOST;

pub const ROWS: usize = PHIS + MOST * LEVELS;

pub const ROSTERS: usize = ROWS + MOST * ROW;

// The bytes of a rack.
pub const RACK_BYTES: usize = ROSTERS + (LEVELS + 1) * ROW;

// The bytes of a rack, as many as it has.
pub type Rack = [u8; RACK_BYTES];

// Where the entries of a vertex stand, and a roster. Each part has its own place and width: one function of all five would be given what these keep here.

// Where the rank of vertex v stands.
pub fn rank_at(v: usize) -> usize
    requires { v < low.most }
    ensures { NumberAt low ranks_from 1 v result }
{
    RANKS + v
}

// Where the entry for the mate of vertex v stands.
pub fn mate_at(v: usize) -> usize
    requires { v < low.most }
    ensures { NumberAt low (mates_from low) 2 v result }
{
    MATES + 2 * v
}

// Where the count of vertex v at j stands.
pub fn count_at(v: usize, j: usize) -> usize
    requires { (v < low.most) × (j < low.levels) }
    ensures { NumberAt low (phis_from low) low.width (low.levels * v + j) result }
{
    PHIS + (LEVELS * v + j)
}

// Where the row of vertex v stands.
pub fn row_at(v: usize) -> usize
    requires { v < low.most }
    ensures { NumberAt low (rows_from low) low.row v result }
{
    ROWS + ROW * v
}

// Where the roster of rank r stands.
pub fn roster_at(r: usize) -> usize
    requires { r ≤ low.levels }
    ensures { NumberAt low (rosters_from low) low.row r result }
{
    ROSTERS + ROW * r
}
