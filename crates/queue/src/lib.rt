// Vertices that wait, in the order of their arrival, in places of their own: there is no heap.
#![tactic(auto)]

ghost use Rattle.std.specs.Prelude.{◌≡◌, ℕ, ◌<◌, ◌≤◌, eqb, List, [], ◌∷◌, ◌++◌, length, take};
ghost use Rattle.std.specs.List.{position};
ghost use Rattle.model.specs.Lists.{Distinct};
ghost use Rattle.model.specs.Moves.{without};

use std::marker::Model;

// A queue of at most N vertices: the first of its places hold them.
#[derive(Drop)]
pub struct Queue<const N: usize> {
    places: [u16; N],
    len: usize,
}

impl<const N: usize> Model for Queue<N> {
    ghost Value = { List ℕ };

    ghost view = { λ q. take q.len q.places };

    ghost invariant = { λ q. q.len ≤ N };
}

// The place of v, if it is among those that wait.
fn find(waiting: &[u16], v: usize) -> Option<usize>
    ensures { result ≡ position (λ w. eqb w v) waiting.now }
{
    waiting.iter().position(|w| *w as usize == v)
}

impl<const N: usize> Queue<N> {
    // Nobody waits.
    pub fn new() -> Self
        ensures { result ≡ [] }
    {
        Queue {
            places: [0; N],
            len: 0,
        }
    }

    // Those that wait.
    pub fn as_slice(&self) -> &[u16]
        ensures { result.now ≡ self.now }
    {
        &self.places[..self.len]
    }

    // v joins the end.
    pub fn join(&mut self, v: usize)
        requires { (length self.old < N) × (v < 65536) }
        ensures { self.new ≡ self.old ++ (v ∷ []) }
    {
        self.places[self.len] = v as u16;
        self.len += 1;
    }

    // v leaves, wherever it stands, and those behind it move up.
    pub fn leave(&mut self, v: usize)
        requires { Distinct self.old }
        ensures { self.new ≡ without v self.old }
    {
        let Some(at) = find(self.as_slice(), v) else {
            return;
        };
        self.places.copy_within(at + 1..self.len, at);
        self.len -= 1;
    }
}
