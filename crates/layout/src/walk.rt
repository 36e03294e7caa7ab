// A walk along the row of a vertex, from edge to edge: it reads a word of the row at a time, and the bits of the word lead from one edge to
// the next. What is left of a word stays as it was read, whatever is done to the row meanwhile.
ghost use Rattle.std.specs.Prelude.{◌≡◌, ◌<◌, ◌≤◌, ◌*◌};
ghost use Rattle.std.specs.Iterator.{at_most};
ghost use Rattle.model.specs.Shape.{low};
ghost use Rattle.model.specs.Bytes.{owns_at};
ghost use Rattle.layout.specs.Walks.{place_of, Taken, Stands, Further};

use crate::shape::{Rack, WORD, WORDS};

// Where a walk stands: at a word of the row, with so much of it left. At the end of the row nothing is left, so that what is left tells
// by itself whether there is a place more. As an iterator it gives the places that
// are left of its word, in their order.
#[derive(Clone, Copy)]
pub struct Cursor {
    pub word: usize,
    pub rest: u64,
}

impl Cursor {
    // At word `word`, with `rest` of it left.
    pub fn new(word: usize, rest: u64) -> Cursor
        ensures { result ≡ record { word = word; rest = rest } }
    {
        Cursor { word, rest }
    }
}

impl Iterator for Cursor {
    type Item = usize;

    ghost can_next = { λ s. 64 * s.word < low.most };

    ghost next_gives = { Taken };

    ghost remaining = { λ s. at_most s.rest };

    fn next(&mut self) -> Option<usize> {
        if self.rest == 0 {
            return None;
        }
        let first = place(self.word, self.rest);
        self.rest = self.rest & (self.rest - 1);
        Some(first)
    }
}

// The first place of what is left of a word.
pub fn place(word: usize, rest: u64) -> usize
    requires rest_nonzero { 0 < rest }
    requires word_bound { 64 * word < low.most }
    ensures { result ≡ place_of word rest }
{
    WORD * word + u64::trailing_zeros(rest) as usize
}

// The first edge of v's row in a word from k on.
fn from_word(rack: &Rack, v: usize, k: usize) -> Cursor
    requires v_lt_most { v < low.most }
    requires k_bound { 64 * k ≤ low.most }
    ensures { Stands low.most (owns_at low rack.now v) (64 * k) result }
{
    for word in k..WORDS {
        let rest = crate::words::word(rack, v, word);
        if rest != 0 {
            return Cursor { word, rest };
        }
    }
    Cursor {
        word: WORDS,
        rest: 0,
    }
}

// The first edge of v's row.
pub fn first(rack: &Rack, v: usize) -> Cursor
    requires v_lt_most { v < low.most }
    ensures { Stands low.most (owns_at low rack.now v) 0 result }
{
    from_word(rack, v, 0)
}

// The edge after the one at which the walk stands.
pub fn next(rack: &Rack, v: usize, at: Cursor) -> Cursor
    requires v_lt_most { v < low.most }
    requires rest_nonzero { 0 < at.rest }
    requires word_bound { 64 * at.word < low.most }
    ensures { Further low.most (owns_at low rack.now v) at result }
{
    let rest = at.rest & (at.rest - 1);
    if rest != 0 {
        return Cursor {
            word: at.word,
            rest,
        };
    }
    from_word(rack, v, at.word + 1)
}
