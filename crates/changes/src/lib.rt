// One change of a rack that is known to be sound: its number, and the add or drop with its settling. That it is sound stands in the
// contracts, as `Held` does in those of `moves`, on whose functions it stands.
#![tactic(auto)]

ghost use Rattle.std.specs.Prelude.{◌≡◌, ◌≢◌, true, false, [], ◌<◌};
ghost use Rattle.calls.specs.Terms.{code_of, outcome, told};
ghost use Rattle.model.specs.Shape.{low};
ghost use Rattle.model.specs.State.{edge, pairs as pairs_of};
ghost use Rattle.model.specs.Bytes.{rules_at, top_at, read, write};
ghost use Rattle.model.specs.Change.{add as added, drop as dropped, change as change_of};
ghost use Rattle.moves.specs.Proper.{Held};
ghost use Rattle.changes.specs.Working.{Joins, rise_run, part_run, Tried};
ghost use Rattle.changes.specs.Sounded.{Sounded, Begun, Liftable, Ended, Acceptable, Checked, accepted_run, brought, ends_number, link_number};

pub mod working;

use calls::{Figures, Kind, Refusal};
use edges::Rise;
use layout::shape::Rack;
use settling::tally::Tally;

// The pairs held. In a sound rack the roster of level -1 is the free vertices, and the others are twice as many as the pairs.
pub fn pairs(rack: &Rack) -> u32
    requires { Sounded low rack.now }
    ensures { result ≡ pairs_of (read low rack.now) }
{
    ((layout::size(rack) - layout::rosters::size(rack, 0)) / 2) as u32
}

// "8. A board named is n or more." and "9. The two boards named are the same." A query of two boards tests the first before it has a second, so that its
// test of these is another.
fn check_ends(n: usize, a: u32, b: u32) -> Result<(), Refusal>
    ensures { outcome result ≡ ends_number n a b }
{
    if n <= a as usize {
        return Err(Refusal::NoBoard);
    }
    if n <= b as usize {
        return Err(Refusal::NoBoard);
    }
    if a == b {
        return Err(Refusal::SameBoard);
    }
    Ok(())
}

// "10. A link to add is there already." and "11. A link to drop isn't there."
fn check_link(kind: Kind, there: bool) -> Result<(), Refusal>
    ensures { outcome result ≡ link_number kind there }
{
    match (kind, there) {
        (Kind::Add, true) => Err(Refusal::Linked),
        (Kind::Drop, false) => Err(Refusal::NotLinked),
        _ => Ok(()),
    }
}

// The kind of a change, or the first of 7 to 11 that fits: the words have no say. The edge is looked for only if the boards named are two of the rack's.
fn check(rack: &Rack, code: u32, a: u32, b: u32) -> Result<Kind, Refusal>
    requires { Held low rack.now }
    ensures { Checked (read low rack.now) (brought code a b []) result }
{
    let kind = Kind::try_from(code)?;
    check_ends(layout::size(rack), a, b)?;
    let there = layout::linked(rack, a as usize, b as usize);
    check_link(kind, there)?;
    Ok(kind)
}

// An add of an edge that is not there: a is the lower number. Words that are sure to suffice need no trial. If they run out, the edge is taken out again.
fn add(rack: &mut Rack, a: usize, b: usize, words: &[u32]) -> Tally
    requires sounded { Sounded low rack.old }
    requires a_bound { (a < (read low rack.old).n) × (b < (read low rack.old).n) × (a ≢ b) × (edge (read low rack.old) a b ≡ false) }
    ensures { Tried (added (rules_at rack.old) words.now a b (read low rack.old)) words.now rack.old rack.new result }
{
    edges::add_edge(rack, a, b);
    let Some(Rise { level: i, riser: u }) = edges::riser(rack, a, b) else {
        return Tally::new();
    };
    let rise = |rack: &mut Rack|
        requires begun { Begun low rack.old }
        requires liftable { Liftable (top_at rack.old) (read low rack.old) i u }
        ensures { Ended (rise_run (rules_at rack.old) words.entry.now i u (read low rack.old)) rack.new result }
    { working::promote_and_settle(rack, u, i, words) };
    if working::enough(rack, i, 1, words) {
        return rise(rack);
    }
    let t = working::try_out(rack, words, rise);
    if (words.len() as u64) < t.draws {
        edges::drop_edge(rack, a, b);
    }
    t
}

// A drop of an edge that is there: a is the lower number. "If its ends were mates, part them and settle. Otherwise no level changes."
fn drop(rack: &mut Rack, a: usize, b: usize, words: &[u32]) -> Tally
    requires sounded { Sounded low rack.old }
    requires a_bound { (a < (read low rack.old).n) × (b < (read low rack.old).n) × (a ≢ b) × (edge (read low rack.old) a b ≡ true) }
    ensures { Tried (dropped (rules_at rack.old) words.now a b (read low rack.old)) words.now rack.old rack.new result }
{
    if layout::mate(rack, a) != Some(b as u16) {
        edges::drop_edge(rack, a, b);
        return Tally::new();
    }
    let i = layout::rank(rack, a) as usize - 1;
    let part = |rack: &mut Rack|
        requires sounded { Sounded low rack.old }
        requires joins { Joins (read low rack.old) a b }
        ensures { Ended (part_run (rules_at rack.old) words.entry.now a b (read low rack.old)) rack.new result }
    {
        edges::drop_edge(rack, a, b);
        working::part_and_settle(rack, a, b, words)
    };
    if working::enough(rack, i, 2, words) {
        return part(rack);
    }
    working::try_out(rack, words, part)
}

// The moves of a change that none of 7 to 11 fits, if its words suffice.
fn accepted(rack: &mut Rack, kind: Kind, a: usize, b: usize, words: &[u32]) -> Tally
    requires sounded { Sounded low rack.old }
    requires acceptable { Acceptable (read low rack.old) (code_of kind) a b }
    ensures { Tried (accepted_run (rules_at rack.old) (read low rack.old) (brought (code_of kind) a b words.now)) words.now rack.old rack.new result }
{
    let low = a.min(b);
    let high = a.max(b);
    match kind {
        Kind::Add => add(rack, low, high, words),
        Kind::Drop => drop(rack, low, high, words),
    }
}

// One change of a sound rack, without the audit: what was done, or the first of 7 to 12 that fits. Any code is taken, as C gives it: it promises 7 of others.
pub fn change(rack: &mut Rack, code: u32, a: u32, b: u32, words: &[u32]) -> Result<Figures, Refusal>
    requires { Sounded low rack.old }
    ensures answers { told result ≡ (change_of (rules_at rack.old) (read low rack.old) (brought code a b words.now)).answer }
    ensures leaves { rack.new ≡ write (change_of (rules_at rack.old) (read low rack.old) (brought code a b words.now)).state }
{
    let kind = check(rack, code, a, b)?;
    let t = accepted(rack, kind, a as usize, b as usize, words);
    if t.draws <= words.len() as u64 {
        return Ok(Figures {
            draws: t.draws,
            falls: t.falls,
            pairs: pairs(rack),
        });
    }
    Err(Refusal::Words)
}
