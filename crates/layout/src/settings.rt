// The settings of a rack, growth and top level, which no change alters, and what follows from them: the thresholds. They are passed as two numbers, of four
// bytes as they are asked for and of one as they stand in the rack: a struct of each width would be taken apart at once. That they are in range is asked
// where a table is read by them, and is a test of the audit, so that no type can say it of a rack.
ghost use Rattle.std.specs.Prelude.{◌≡◌, ℕ, ◌<◌, ◌^◌, leb, length, get_or, set};
ghost use Rattle.model.specs.Shape.{low};
ghost use Rattle.model.specs.Counting.{bit};
ghost use Rattle.model.specs.State.{low_with, InRange};
ghost use Rattle.model.specs.Bytes.{growth_at, top_at, kind_at};
ghost use Rattle.model.specs.Sound.{settings_good};

use crate::shape;
use crate::shape::Rack;

// "growth g from 2 to 8"
pub const LEAST_GROWTH: usize = 2;

pub const MOST_GROWTH: usize = 8;

// "The threshold at j is g to the power j": a row for each growth, from the least on.
const THRESHOLDS: [[u16; shape::LEVELS]; MOST_GROWTH + 1 - LEAST_GROWTH] = [
    [1, 2, 4, 8],
    [1, 3, 9, 27],
    [1, 4, 16, 64],
    [1, 5, 25, 125],
    [1, 6, 36, 216],
    [1, 7, 49, 343],
    [1, 8, 64, 512],
];

// The growth.
#[tactic(auto, unfolding(model::specs::Bytes::growth_at))]
pub fn growth(rack: &Rack) -> u8
    ensures { result ≡ growth_at rack.now }
{
    rack[shape::GROWTH]
}

// The highest level.
#[tactic(auto, unfolding(model::specs::Bytes::top_at))]
pub fn top(rack: &Rack) -> u8
    ensures { result ≡ top_at rack.now }
{
    rack[shape::TOP]
}

// Sets both.
pub fn put(rack: &mut Rack, growth: u8, top: u8)
    ensures { rack.new ≡ set (set rack.old 4 growth) 5 top }
{
    rack[shape::GROWTH] = growth;
    rack[shape::TOP] = top;
}

// The threshold of level j.
pub fn threshold(rack: &Rack, j: usize) -> u16
    requires in_range { InRange (kind_at low rack.now) }
    requires j_lt_levels { j < low.levels }
    ensures { result ≡ growth_at rack.now ^ j }
{
    THRESHOLDS[growth(rack) as usize - LEAST_GROWTH][j]
}

// All thresholds of the rack's growth.
pub fn thresholds(rack: &Rack) -> [u16; shape::LEVELS]
    requires in_range { InRange (kind_at low rack.now) }
    ensures { (length result ≡ low.levels) × ((j : ℕ) → j < low.levels → get_or result j 0 ≡ growth_at rack.now ^ j) }
{
    THRESHOLDS[growth(rack) as usize - LEAST_GROWTH]
}

// "levels stop at t": 1 for each level up to the top, and 0 above, a row for each top level.
const STANDING: [[u16; shape::LEVELS]; shape::LEVELS] = [
    [1, 0, 0, 0],
    [1, 1, 0, 0],
    [1, 1, 1, 0],
    [1, 1, 1, 1],
];

// Which levels the rack has.
pub fn standing(rack: &Rack) -> [u16; shape::LEVELS]
    requires in_range { InRange (kind_at low rack.now) }
    ensures { (length result ≡ low.levels) × ((j : ℕ) → j < low.levels → get_or result j 0 ≡ bit (leb j (top_at rack.now))) }
{
    STANDING[top(rack) as usize]
}

// Whether settings are in their ranges.
#[tactic(auto, unfolding(model::specs::Sound::settings_good))]
pub fn in_range(growth: u32, top: u32) -> bool
    ensures { result ≡ settings_good (low_with growth top) }
{
    (LEAST_GROWTH..=MOST_GROWTH).contains(&(growth as usize)) && (top as usize) < shape::LEVELS
}
