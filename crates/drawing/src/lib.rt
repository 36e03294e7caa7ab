// The words of a draw: which one decides it, and a quick test for words that suffice.
#![tactic(auto)]

ghost use Rattle.std.specs.Prelude.{◌≡◌, ◌≤◌};
ghost use Rattle.model.specs.Shape.{low};
ghost use Rattle.model.specs.Words.{chooses as choosing, deciding, place as place_of};
ghost use Rattle.drawing.specs.Sure.{Sure};

// Every word below this, 2^32 - 256, chooses among any number of neighbours up to 256.
const SURE: u32 = 4294967040;

// How many words there are: 2^32.
const ALL_WORDS: usize = 4294967296;

// The word that decides a draw: its number among those lent, and the place that it chooses.
#[derive(Clone, Copy)]
pub struct Decision {
    pub number: usize,
    pub place: usize,
}

// "A word below T chooses place word mod k", T being the largest multiple of k that is at most 2^32. T is looked for only if the word is large.
fn chooses(w: u32, k: usize) -> bool
    requires { (1 ≤ k) × (k ≤ low.most) }
    ensures { result ≡ choosing k w }
{
    if w < SURE {
        return true;
    }
    (w as usize) < ALL_WORDS / k * k
}

// "a word of T or more is used up and the next is tried": the decision among k, where `used` words were used before. Past the last word it is
// that of a word 0, which chooses; the change has then run out of words.
pub fn decide(words: &[u32], used: usize, k: usize) -> Decision
    requires { (1 ≤ k) × (k ≤ low.most) }
    ensures { (result.number ≡ deciding words.now used k) × (result.place ≡ place_of words.now used k) }
{
    for j in used..words.len() {
        let w = words[j];
        if chooses(w, k) {
            return Decision {
                number: j,
                place: w as usize % k,
            };
        }
    }
    Decision {
        number: used.max(words.len()),
        place: 0,
    }
}

// Whether the first h words are there, each below 2^32 - 256. A no says nothing. All of them are looked at, several at once: that is quicker than to
// stop at the first that is large.
pub fn sure(words: &[u32], h: usize) -> bool
    ensures { Sure result words.now h }
{
    let Some(first) = words.get(..h) else {
        return false;
    };
    first.iter().fold(true, |small, w| small & (*w < SURE))
}
