// The places that one word of a row holds.
ghost use Rattle.std.specs.Prelude.{ℕ, ◌+◌, ◌*◌, ◌<◌};
ghost use Rattle.model.specs.Shape.{low};
ghost use Rattle.model.specs.Parts.{bit_of};
ghost use Rattle.audit.specs.Bits.{AllPass};

// Whether the test passes at each place that word k of a row holds. The bits of a word lead from place to place, and `rest & (rest - 1)` takes the
// lowest out. No iterator hands them out, since it takes the lowest out before the test of its place: that was measured, and is up to a tenth more
// instructions of the whole audit.
pub fn all<F: Fn(usize) -> bool>(k: usize, word: u64, test: F) -> bool
    requires k_bound { 64 * k < low.most }
    requires callable { (j : ℕ) → j < 64 → F.pre test (64 * k + j) }
    ensures { AllPass (bit_of word) (λ j. F.post test (64 * k + j)) result }
{
    let mut rest = word;
    while rest != 0 {
        let place = layout::walk::place(k, rest);
        if !test(place) {
            return false;
        }
        rest &= rest - 1;
    }
    true
}
