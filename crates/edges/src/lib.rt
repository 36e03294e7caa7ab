// One edge more or less on the rack's bytes, with the counts of its ends and the number of edges; and the search for a rise.
#![tactic(auto)]

ghost use Rattle.std.specs.Prelude.{◌≡◌, true, false, ◌≢◌, suc, ◌<◌};
ghost use Rattle.model.specs.Shape.{low};
ghost use Rattle.model.specs.State.{edge};
ghost use Rattle.model.specs.Bytes.{top_at, rules_at, read, write};
ghost use Rattle.model.specs.Change.{add_edge as edge_added, reown, without_edge, riser as riser_of};
ghost use Rattle.moves.specs.Proper.{Held};
ghost use Rattle.edges.specs.Steps.{Countable, edge_counted, reached_by};

use layout::shape::Rack;

// The level that a count reaches, and the vertex that rises to it.
#[derive(Clone, Copy)]
pub struct Rise {
    pub level: usize,
    pub riser: usize,
}

// One edge more, or one less, that counts from level j on: for both its ends a and b, and in the number of edges. A flag tells which, as in `moves`.
fn count_edge(rack: &mut Rack, a: usize, b: usize, j: usize, more: bool)
    requires countable { Countable low more rack.old a b j }
    ensures { rack.new ≡ edge_counted low more rack.old a b j }
{
    let k = layout::settings::top(rack) as usize + 1 - j;
    moves::step_counts(rack, a, j, k, more);
    moves::step_counts(rack, b, j, k, more);
    let m = layout::edges(rack);
    let next = moves::stepped(m, more);
    layout::set_edges(rack, next);
}

// "Add: the owner is the end of higher level, on equal levels the lower number": a is the lower number.
pub fn add_edge(rack: &mut Rack, a: usize, b: usize)
    requires held { Held low rack.old }
    requires a_bound { (a < (read low rack.old).n) × (b < (read low rack.old).n) × (a ≢ b) × (edge (read low rack.old) a b ≡ false) }
    ensures { rack.new ≡ write (edge_added a b (read low rack.old)) }
{
    let ra = layout::rank(rack, a);
    let rb = layout::rank(rack, b);
    if rb <= ra {
        layout::own(rack, a, b);
    } else {
        layout::own(rack, b, a);
    }
    count_edge(rack, a, b, ra.max(rb) as usize, true);
}

// "Drop: remove the link.": whichever end owns it.
pub fn drop_edge(rack: &mut Rack, a: usize, b: usize)
    requires held { Held low rack.old }
    requires a_bound { (a < (read low rack.old).n) × (b < (read low rack.old).n) × (a ≢ b) × (edge (read low rack.old) a b ≡ true) }
    ensures { rack.new ≡ write (reown (read low rack.old) (without_edge (read low rack.old).owns a b)) }
{
    let j = layout::rank(rack, a).max(layout::rank(rack, b)) as usize;
    layout::disown(rack, a, b);
    layout::disown(rack, b, a);
    count_edge(rack, a, b, j, false);
}

// "The search for a rise stops at the first level, from [t] downwards to one above both ends, that either end's count reaches. [..] If both
// reach it, the lower number rises.": a is the lower number. The counts above the top are 0, and reach no threshold.
pub fn riser(rack: &Rack, a: usize, b: usize) -> Option<Rise>
    requires held { Held low rack.now }
    requires a_bound { (a < (read low rack.now).n) × (b < (read low rack.now).n) }
    ensures { reached_by result ≡ riser_of (rules_at rack.now) a b (suc (top_at rack.now)) (read low rack.now) }
{
    let low = layout::rank(rack, a).max(layout::rank(rack, b)) as usize;
    let bars = layout::settings::thresholds(rack);
    'search: {
        for j in (low..layout::shape::LEVELS).rev() {
            if bars[j] <= layout::phi(rack, a, j) as u16 {
                break 'search Some(Rise { level: j, riser: a });
            }
            if bars[j] <= layout::phi(rack, b, j) as u16 {
                break 'search Some(Rise { level: j, riser: b });
            }
        }
        None
    }
}
