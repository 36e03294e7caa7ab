// The calls on a lent rack: making, a change, the audit and the queries. None has a `requires`: what a call cannot do it turns back,
// with the first number that fits, and then every byte stays. Each contract names the definition that leaves one outcome.
#![tactic(auto)]

ghost use Rattle.std.specs.Prelude.{◌≡◌};
ghost use Rattle.model.specs.Shape.{low};
ghost use Rattle.model.specs.Bytes.{size_at};
ghost use Rattle.model.specs.State.{low_kind};
ghost use Rattle.model.specs.Sound.{sound as sound_of};
ghost use Rattle.model.specs.Calls.{make_number, made, audit as audit_of, level_query, mate_query, linked_query, roster_query};
ghost use Rattle.calls.specs.Terms.{outcome, kind_with};
ghost use Rattle.changes.specs.Sounded.{brought};
ghost use Rattle.engine.specs.Answers.{Ranks, Sizes, SoundRack, Names, ChangeIs, AuditIs, LevelIs, QueryIs, sound_number, other_number};

use calls::{Figures, Refusal, SHORT, Settings};
use layout::shape::{LEVELS, MOST, Rack};

// "1. The rack buffer isn't 9,992 bytes.", with the length of W-205; otherwise the rack that the bytes are.
fn sized(bytes: &[u8]) -> Result<&Rack, Refusal>
    ensures { Sizes low bytes.now result }
{
    bytes.as_array().ok_or(Refusal::RackLength)
}

// "6. The rack isn't sound."
fn check_sound(rack: &Rack) -> Result<(), Refusal>
    ensures { outcome result ≡ sound_number (sound_of low rack.now) }
{
    if audit::sound(rack) {
        return Ok(());
    }
    Err(Refusal::Unsound)
}

// 1 or 6; otherwise the rack, which is sound.
fn sound(bytes: &[u8]) -> Result<&Rack, Refusal>
    ensures { SoundRack low bytes.now result }
{
    let rack = sized(bytes)?;
    check_sound(rack)?;
    Ok(rack)
}

// Making with settings: the rack of n boards with no link.
pub fn make_with(bytes: &mut [u8], n: u32, settings: Settings) -> Result<(), Refusal>
    ensures number { outcome result ≡ make_number (kind_with settings) bytes.old n }
    ensures leaves { bytes.new ≡ made (kind_with settings) bytes.old n }
{
    let Some(rack) = bytes.as_mut_array() else {
        return Err(Refusal::RackLength);
    };
    if n == 0 {
        return Err(Refusal::Boards);
    }
    if MOST < n as usize {
        return Err(Refusal::Boards);
    }
    if !layout::settings::in_range(settings.growth, settings.top) {
        return Err(Refusal::Setting);
    }
    layout::clear(rack, n as u16, settings.growth as u8, settings.top as u8);
    Ok(())
}

// The short form of making: "The short form of making gives 4 and 3".
pub fn make(bytes: &mut [u8], n: u32) -> Result<(), Refusal>
    ensures number { outcome result ≡ make_number low_kind bytes.old n }
    ensures leaves { bytes.new ≡ made low_kind bytes.old n }
{
    make_with(bytes, n, SHORT)
}

// A change: add (code 1) or drop (code 2) the link a-b, with words lent for its draws.
pub fn change(
    bytes: &mut [u8],
    code: u32,
    a: u32,
    b: u32,
    words: &[u32],
) -> Result<Figures, Refusal>
    ensures { ChangeIs low bytes.old (brought code a b words.now) result bytes.new }
{
    let Some(rack) = bytes.as_mut_array() else {
        return Err(Refusal::RackLength); // "with all other figures 0"
    };
    check_sound(rack)?;
    changes::change(rack, code, a, b, words)
}

// The audit.
pub fn audit(bytes: &[u8]) -> Result<bool, Refusal>
    ensures { AuditIs result (audit_of low bytes.now) }
{
    Ok(audit::sound(sized(bytes)?))
}

// 1, 6 or 8 for a query that names one board; otherwise the rack.
fn named(bytes: &[u8], v: u32) -> Result<&Rack, Refusal>
    ensures { Names low bytes.now v result }
{
    let rack = sound(bytes)?;
    if layout::size(rack) <= v as usize {
        return Err(Refusal::NoBoard);
    }
    Ok(rack)
}

// 8 or 9 for the second board that a query names.
fn check_other(rack: &Rack, v: u32, w: u32) -> Result<(), Refusal>
    ensures { outcome result ≡ other_number (size_at rack.now) v w }
{
    if layout::size(rack) <= w as usize {
        return Err(Refusal::NoBoard);
    }
    if v == w {
        return Err(Refusal::SameBoard);
    }
    Ok(())
}

// The level of a board: one less than its rank.
pub fn level(bytes: &[u8], v: u32) -> Result<i32, Refusal>
    ensures { LevelIs result (level_query low bytes.now v) }
{
    let rack = named(bytes, v)?;
    let rank = layout::rank(rack, v as usize);
    Ok(i32::from(rank) - 1)
}

// The mate of a board, 65,535 if it is idle: a number, as in the definition that the contract names.
pub fn mate(bytes: &[u8], v: u32) -> Result<u32, Refusal>
    ensures { QueryIs result (mate_query low bytes.now v) }
{
    let rack = named(bytes, v)?;
    Ok(layout::mate_entry(rack, v as usize) as u32)
}

// The rank of a level: one more. A level outside -1 to 3 has none.
fn rank_of(level: i32) -> Option<usize>
    ensures { Ranks low.levels level result }
{
    if level == -1 {
        return Some(0);
    }
    let above = usize::try_from(level).ok()?;
    if LEVELS <= above {
        return None;
    }
    Some(above + 1)
}

// The number of boards at a level, 0 for a level that is none.
pub fn roster(bytes: &[u8], level: i32) -> Result<u32, Refusal>
    ensures { QueryIs result (roster_query low bytes.now level) }
{
    let rack = sound(bytes)?;
    let Some(rank) = rank_of(level) else {
        return Ok(0);
    };
    Ok(layout::rosters::size(rack, rank) as u32)
}

// Whether two boards are linked: 1 or 0, as in the definition that the contract names.
pub fn linked(bytes: &[u8], v: u32, w: u32) -> Result<u32, Refusal>
    ensures { QueryIs result (linked_query low bytes.now v w) }
{
    let rack = named(bytes, v)?;
    check_other(rack, v, w)?;
    let there = layout::linked(rack, v as usize, w as usize);
    Ok(there as u32)
}
