// Runs of moves on the rack's bytes: a draw, a promotion, the scan after a fall, a taking, and the settling. The rack and the words are lent by the caller,
// and are no part of what a change has come to. That the bytes are `Held`, with owners in order and with those who wait in the queue, stands in each contract:
// it is of the rack and the queue together, and a draw or a fall begins where one of them is out of the queue already.
#![tactic(auto)]

ghost use Rattle.std.specs.Prelude.{◌≡◌, suc, ◌^◌, ◌<◌, ◌≤◌, length};
ghost use Rattle.model.specs.Shape.{low};
ghost use Rattle.model.specs.Lists.{All};
ghost use Rattle.model.specs.State.{below};
ghost use Rattle.model.specs.Bytes.{growth_at, top_at, rules_at, read, write};
ghost use Rattle.model.specs.Moves.{part as parted, rise as risen, draw as drawn, promote as promoted, fall as fallen};
ghost use Rattle.model.specs.Moves.{scan_from, take as taken, pick as picked, settle as settled};
ghost use Rattle.theory.specs.Waiting.{marks, queues_in, join_queue, part_queue};
ghost use Rattle.moves.specs.Proper.{Ordered, Held, RowBelow};
ghost use Rattle.settling.specs.Settling.{running, HoldsWaitingBut, HoldsWaiting, CanPart, Falling, Room, Left, visited, found_by};
ghost use Rattle.settling.specs.Settling.{draw_limit, fall_limit, take_limit};

pub mod progress;
pub mod tally;

use layout::shape::Rack;
use progress::{Progress, Waiting};

// The next vertex to be taken, with its level.
#[derive(Clone, Copy)]
struct Next {
    level: usize,
    vertex: usize,
}

// v is about to be parted and to rise: its mate joins the queue, and a v without a mate is in it no longer.
fn requeue(rack: &Rack, queue: &mut Waiting, v: usize)
    requires held { (Held low rack.now) × (v < (read low rack.now).n) }
    requires can_part { CanPart (read low rack.now) v queue.old }
    ensures { queue.new ≡ part_queue (marks (read low rack.now)) v queue.old }
{
    match layout::mate(rack, v) {
        Some(m) => queue.join(m as usize),
        None if layout::rank(rack, v) == 0 => {}
        None => queue.leave(v),
    }
}

// v loses its mate if it has one, which joins the queue, and rises to i.
fn lift(rack: &mut Rack, queue: &mut Waiting, v: usize, i: usize)
    requires held { (Held low rack.old) × (Ordered (read low rack.old)) }
    requires v_bound { (v < (read low rack.old).n) × ((read low rack.old).rank v ≤ i) × (i ≤ top_at rack.old) }
    requires can_part { CanPart (read low rack.old) v queue.old }
    ensures rack_after { rack.new ≡ write (risen i v (parted v (read low rack.old))) }
    ensures queue_after { queue.new ≡ part_queue (marks (read low rack.old)) v queue.old }
{
    requeue(rack, queue, v);
    moves::part(rack, v);
    moves::rise(rack, v, i);
}

// "Draw at u, level i", once u's row holds exactly its neighbours below i, k of them: trailing zeros lead to the place that the word gives. It is compiled
// into each place that calls it, which saves about a hundredth of a change beside its audit.
#[inline(always)]
fn draw(rack: &mut Rack, progress: &mut Progress, words: &[u32], u: usize, i: usize, k: usize)
    requires held { (Held low rack.old) × (Ordered (read low rack.old)) }
    requires u_bound { (u < (read low rack.old).n) × ((read low rack.old).mate u ≡ u) × ((read low rack.old).rank u ≡ suc i) × (i ≤ top_at rack.old) }
    requires row_below { (RowBelow i u (read low rack.old)) × (1 ≤ below (read low rack.old) u i) × (k ≡ below (read low rack.old) u i) }
    requires holds_waiting_but { (HoldsWaitingBut u progress.old.queue (read low rack.old)) × (progress.old.tally.draws ≤ draw_limit) }
    ensures { Left (drawn words.now i u (running low rack.old progress.old)) rack.new progress.new }
{
    let by = drawing::decide(words, progress.tally.draws as usize, k);
    let y = layout::nth_owned(rack, u, by.place);
    lift(rack, &mut progress.queue, y, i);
    moves::pair(rack, u, y);
    let used = by.number as u64 + 1;
    progress.tally = progress.tally.drew(used);
}

// "loses its mate if it has one, rises to i and draws": its count at i says among how many.
pub fn promote(rack: &mut Rack, progress: &mut Progress, words: &[u32], u: usize, i: usize)
    requires held { (Held low rack.old) × (Ordered (read low rack.old)) }
    requires u_bound { (u < (read low rack.old).n) × ((read low rack.old).rank u ≤ i) × (i ≤ top_at rack.old) × (1 ≤ below (read low rack.old) u i) }
    requires holds_waiting { (HoldsWaiting progress.old.queue (read low rack.old)) × (progress.old.tally.draws ≤ draw_limit) }
    ensures { Left (promoted words.now i u (running low rack.old progress.old)) rack.new progress.new }
{
    let k = layout::phi(rack, u, i) as usize;
    lift(rack, &mut progress.queue, u, i);
    draw(rack, progress, words, u, i, k);
}

// A vertex's turn in the scan: "each one that is below i with a count at i of at least" the threshold is promoted.
fn visit(rack: &mut Rack, progress: &mut Progress, words: &[u32], w: usize, i: usize, bar: u16)
    requires held { (Held low rack.old) × (Ordered (read low rack.old)) }
    requires w_bound { (w < (read low rack.old).n) × (i ≤ top_at rack.old) × (bar ≡ growth_at rack.old ^ i) }
    requires holds_waiting { (HoldsWaiting progress.old.queue (read low rack.old)) × (progress.old.tally.draws ≤ draw_limit) }
    ensures { Left (visited (rules_at rack.old) words.now i w (running low rack.old progress.old)) rack.new progress.new }
{
    if i < layout::rank(rack, w) as usize {
        return;
    }
    if (layout::phi(rack, w, i) as u16) < bar {
        return;
    }
    promote(rack, progress, words, w, i);
}

// "Then the boards to which v owned links just after the fall are gone through by rising number": the row is walked a word at a time while
// it changes, since a vertex that has left it meanwhile stands at level i and is passed over. The walk counts no index, and reads the row's next
// word as the last visit left it, so that an iterator along the row would have to hold the rack.
fn scan(rack: &mut Rack, progress: &mut Progress, words: &[u32], v: usize, i: usize, bar: u16)
    requires held { (Held low rack.old) × (Ordered (read low rack.old)) }
    requires v_bound { (v < (read low rack.old).n) × (i ≤ top_at rack.old) × (RowBelow i v (read low rack.old)) × (bar ≡ growth_at rack.old ^ i) }
    requires holds_waiting { (HoldsWaiting progress.old.queue (read low rack.old)) × (progress.old.tally.draws ≤ take_limit low) }
    ensures { Left (scan_from (rules_at rack.old) words.now i v (running low rack.old progress.old)) rack.new progress.new }
{
    let mut at = layout::walk::first(rack, v);
    while at.rest != 0 {
        let w = layout::walk::place(at.word, at.rest);
        visit(rack, progress, words, w, i, bar);
        at = layout::walk::next(rack, v, at);
    }
}

// v, which falls from level i, joins the end of its new level; at level -1 nobody waits.
fn rejoin(queue: &mut Waiting, v: usize, i: usize)
    requires { (length queue.old < low.most) × (v < 65536) }
    ensures { queue.new ≡ join_queue v i queue.old }
{
    if i > 0 {
        queue.join(v);
    }
}

// "If not, v falls to i-1", with k neighbours below i: "A board that falls joins the end of its new level before any rise that follows the
// fall." Where no count of theirs has come to the threshold, nobody rises.
fn fall(
    rack: &mut Rack,
    progress: &mut Progress,
    words: &[u32],
    v: usize,
    i: usize,
    k: usize,
    bar: u16,
)
    requires held { (Held low rack.old) × (Ordered (read low rack.old)) }
    requires falling { Falling low rack.old i v k bar }
    requires holds_waiting_but { (HoldsWaitingBut v progress.old.queue (read low rack.old)) × (Room (take_limit low) fall_limit progress.old.tally) }
    ensures { Left (scan_from (rules_at rack.old) words.now i v (fallen i v (running low rack.old progress.old))) rack.new progress.new }
{
    let low = moves::fall(rack, v, i, k, bar);
    progress.tally = progress.tally.fell();
    rejoin(&mut progress.queue, v, i);
    if low {
        return;
    }
    scan(rack, progress, words, v, i, bar);
}

// "Taking a waiting v at level i"
fn take(rack: &mut Rack, progress: &mut Progress, words: &[u32], v: usize, i: usize)
    requires held { (Held low rack.old) × (Ordered (read low rack.old)) }
    requires v_bound { (v < (read low rack.old).n) × ((read low rack.old).mate v ≡ v) × ((read low rack.old).rank v ≡ suc i) × (i ≤ top_at rack.old) }
    requires holds_waiting { (HoldsWaiting progress.old.queue (read low rack.old)) × (Room (take_limit low) fall_limit progress.old.tally) }
    ensures { Left (taken (rules_at rack.old) words.now i v (running low rack.old progress.old)) rack.new progress.new }
{
    progress.queue.leave(v);
    let k = moves::hand_over(rack, v, i).below;
    let bar = layout::settings::threshold(rack, i);
    if bar as usize <= k {
        draw(rack, progress, words, v, i, k);
        return;
    }
    fall(rack, progress, words, v, i, k, bar);
}

// "Among waiting boards of the highest level, the one that has waited at that level longest is taken": of the highest rank among those that wait,
// the first. Nobody of rank 0 waits, so that it stands for none yet.
fn pick(rack: &Rack, waiting: &[u16]) -> Option<Next>
    requires held { Held low rack.now }
    requires inside { All (λ v. v < (read low rack.now).n) waiting.now }
    ensures { found_by result ≡ picked (suc (top_at rack.now)) (queues_in (read low rack.now).rank waiting.now) }
{
    let mut best = 0;
    let mut vertex = 0;
    for v in waiting {
        let r = layout::rank(rack, *v as usize);
        if best < r {
            best = r;
            vertex = *v as usize;
        }
    }
    if best == 0 {
        return None;
    }
    Some(Next {
        level: (best - 1) as usize,
        vertex,
    })
}

// "The settling: while any board waits, take one": never more takings than n times the number of levels from 0 on.
pub fn settle(rack: &mut Rack, progress: &mut Progress, words: &[u32])
    requires held { (Held low rack.old) × (Ordered (read low rack.old)) }
    requires holds_waiting { (HoldsWaiting progress.old.queue (read low rack.old)) × (Room (suc (length words.now)) 0 progress.old.tally) }
    ensures { Left (settled (rules_at rack.old) words.now (running low rack.old progress.old)) rack.new progress.new }
{
    let limit = layout::size(rack) * (layout::settings::top(rack) as usize + 1);
    for _ in 0..limit {
        let Some(next) = pick(rack, progress.queue.as_slice()) else {
            return;
        };
        take(rack, progress, words, next.vertex, next.level);
    }
}
