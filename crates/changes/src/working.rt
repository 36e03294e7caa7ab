// What is left to do of a change that draws: it is carried out only if its words suffice.
ghost use Rattle.std.specs.Prelude.{◌≡◌, ◌≢◌, ◌<◌, length};
ghost use Rattle.std.specs.Fn.{FnOnceTakesAtMut, FnOnceReturnsAtMut};
ghost use Rattle.model.specs.Shape.{low};
ghost use Rattle.model.specs.Bytes.{rules_at, top_at, read};
ghost use Rattle.model.specs.Moves.{promote as promoted, settle as settled};
ghost use Rattle.model.specs.Change.{start, start_parted};
ghost use Rattle.moves.specs.Proper.{Held};
ghost use Rattle.changes.specs.Sounded.{Begun, Liftable, Ended};
ghost use Rattle.changes.specs.Working.{TriedOut, Enough};

use layout::shape::Rack;
use settling::progress::Progress;
use settling::tally::Tally;

// "The riser's pair, if any, is parted; it rises, it draws, the settling follows."
pub fn promote_and_settle(rack: &mut Rack, u: usize, i: usize, words: &[u32]) -> Tally
    requires begun { Begun low rack.old }
    requires liftable { Liftable (top_at rack.old) (read low rack.old) i u }
    ensures { Ended (settled (rules_at rack.old) words.now (promoted words.now i u (start (read low rack.old)))) rack.new result }
{
    let mut progress = Progress::new();
    settling::promote(rack, &mut progress, words, u, i);
    settling::settle(rack, &mut progress, words);
    progress.tally
}

// "part them and settle": a's mate is b. "Parting by a drop puts the lower number first.", which is a.
pub fn part_and_settle(rack: &mut Rack, a: usize, b: usize, words: &[u32]) -> Tally
    requires begun { Begun low rack.old }
    requires a_bound { (a < (read low rack.old).n) × (b < (read low rack.old).n) × (a ≢ b) × ((read low rack.old).mate a ≡ b) }
    ensures { Ended (settled (rules_at rack.old) words.now (start_parted a b (read low rack.old))) rack.new result }
{
    let mut progress = Progress::new();
    progress.queue.join(a);
    progress.queue.join(b);
    moves::part(rack, a);
    settling::settle(rack, &mut progress, words);
    progress.tally
}

// "A change is carried out only if its words suffice, and otherwise the rack keeps its bytes.": all of the work is done, and the bytes from before are
// put back if more words were used than are lent.
pub fn try_out<F: FnOnce(&mut Rack) -> Tally>(rack: &mut Rack, words: &[u32], work: F) -> Tally
    requires { FnOnceTakesAtMut F.FnOnce work rack.old }
    ensures { TriedOut (FnOnceReturnsAtMut F.FnOnce work rack.old) words.now rack.old rack.new result }
{
    let kept = *rack;
    let t = work(rack);
    if (words.len() as u64) < t.draws {
        *rack = kept;
    }
    t
}

// Whether the words are sure to suffice for a change that begins at level i: no change has more new pairs than half the boards, nor more than
// links, and at level 0 only k can draw, the one that rises or the two that are parted.
pub fn enough(rack: &Rack, i: usize, k: usize, words: &[u32]) -> bool
    requires { Held low rack.now }
    ensures { Enough result (read low rack.now) i k words.now }
{
    if i == 0 {
        if drawing::sure(words, k) {
            return true;
        }
    }
    let half = layout::size(rack) / 2;
    let edges = layout::edges(rack) as usize;
    drawing::sure(words, half.min(edges))
}
