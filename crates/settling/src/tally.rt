// The figures of a change on its way.
ghost use Rattle.std.specs.Prelude.{◌≡◌, suc, ◌≤◌};
ghost use Rattle.settling.specs.Settling.{fall_limit};

// "A change answers 0, its draws, its falls": both figures.
#[derive(Clone, Copy)]
pub struct Tally {
    pub draws: u64,
    pub falls: u32,
}

impl Tally {
    // Nothing drawn and nothing fallen yet.
    pub fn new() -> Self
        ensures { (result.draws ≡ 0) × (result.falls ≡ 0) }
    {
        Tally { draws: 0, falls: 0 }
    }

    // A draw, after which so many words are used.
    pub fn drew(self, used: u64) -> Self
        ensures { (result.draws ≡ used) × (result.falls ≡ self.falls) }
    {
        Tally {
            draws: used,
            ..self
        }
    }

    // One more fall.
    pub fn fell(self) -> Self
        requires { self.falls ≤ fall_limit }
        ensures { (result.draws ≡ self.draws) × (result.falls ≡ suc self.falls) }
    {
        Tally {
            falls: self.falls + 1,
            ..self
        }
    }
}
