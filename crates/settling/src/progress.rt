// How far a change has come, beside the rack.
ghost use Rattle.std.specs.Prelude.{◌≡◌, []};

use crate::tally::Tally;
use layout::shape::MOST;
use queue::Queue;

// The vertices that wait, as many at most as a rack has.
pub type Waiting = Queue<MOST>;

// One queue of the vertices that wait, in the order of their arrival, and both figures, handed on from move to move: the queue of a level is what
// the one queue has of that level.
#[derive(Drop)]
pub struct Progress {
    pub queue: Waiting,
    pub tally: Tally,
}

impl Progress {
    // Nobody waiting, nothing drawn and nothing fallen yet.
    pub fn new() -> Self
        ensures { (result.queue ≡ []) × (result.tally.draws ≡ 0) × (result.tally.falls ≡ 0) }
    {
        Progress {
            queue: Queue::new(),
            tally: Tally::new(),
        }
    }
}
