//! Draws from the lot of a stage, one after the other, among the same peers.

ghost use Rattle.std.specs.Prelude.{◌≡◌, ◌≤◌, ◌∷◌, ℕ, All, IsPermutation, List, false, if◌then◌else◌, nat_eq};
ghost use Rattle.std.specs.Option.{option_map_or};
ghost use Rattle.std.specs.Ordering.{is_lt};
ghost use Rattle.sl_base_quotients.specs.Quotient.{compare, FitsRatio};
ghost use Rattle.sl_base_rankings.specs.Peers.{top, peers};
ghost use Rattle.sl_prio.specs.inner.Marks.{IsPassed};

use sl_base_quotients::Entry;
use sl_prio::AwardTable;

/// The stage whose lot drew last, and a place of that lot before which it names none of the peers. The next draw goes on from there.
#[derive(Clone, Copy)]
pub(crate) struct Draws {
    pub(crate) stage: usize,
    pub(crate) passed: usize,
}

// Whether an entry has a smaller quotient than the top.
fn is_behind_top(prio: &mut AwardTable, entry: &Entry) -> bool
    ensures behind { result ≡ option_map_or (λ first. is_lt (compare entry.now.ratio first.ratio)) (top prio.old) false }
    ensures same { IsPermutation prio.old prio.new }
{
    match prio.top() {
        Some(top) => entry.ratio.cmp(&top.ratio).is_lt(),
        None => false,
    }
}

impl Draws {
    /// Before the first draw.
    pub(crate) const NONE: Draws = Draws {
        stage: 0,
        passed: 0,
    };

    /// A place of a stage's lot before which it names none of the peers.
    pub(crate) fn passed(self, stage: usize) -> usize
        ensures { result ≡ (if nat_eq stage self.stage then self.passed else 0) }
    {
        if stage == self.stage { self.passed } else { 0 }
    }

    /// Lets an entry in, in addition to those of the table: the draws go on where it is after the peers, and else begin again.
    pub(crate) fn enter(&mut self, prio: &mut AwardTable, entry: &Entry)
        requires { All (λ x. FitsRatio x.ratio) (entry.now ∷ prio.old) }
        ensures stage { self.new.stage ≡ self.old.stage }
        ensures no_farther { self.new.passed ≤ self.old.passed }
        ensures passed { (lot : List ℕ) → IsPassed lot self.old.passed (peers prio.old) → IsPassed lot self.new.passed (peers (entry.now ∷ prio.old)) }
        ensures same { IsPermutation prio.old prio.new }
    {
        if self.passed == 0 || is_behind_top(prio, entry) {
            return;
        }
        self.passed = 0;
    }
}
