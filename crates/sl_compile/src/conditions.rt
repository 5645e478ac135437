//! Few conditions that say what all of a rulebook's say (docs/compiler.md, section 7).

ghost use Rattle.std.specs.Prelude.{◌≡◌, ◌||◌, ℕ, None};
ghost use Rattle.sl_base_terms.specs.Tests.{first_failing};
ghost use Rattle.sl_law_meaning.specs.book.Typing.{condition_tests};
ghost use Rattle.sl_law_meaning.specs.returns.Election.{Election};
ghost use Rattle.sl_law_meaning.specs.returns.Facts.{meets, is_eligible};
ghost use Rattle.sl_compile.specs.Conditions.{SayTheSame};
ghost use Rattle.sl_blocks.specs.inner.Few.{few_of, AreSmall};
ghost use Rattle.sl_compile.specs.inner.Weakest.{is_met, IsFair, IsFairIn, IsFairShare, IsSmallIn};

use sl_blocks::{Easiest, Share};
use sl_law_meaning::Cond;

/// The share that is met wherever one of both is.
fn easier_share(first: Share, second: Share) -> Share
    requires first { IsFairShare first }
    requires second { IsFairShare second }
    ensures fair { IsFairShare result }
    ensures same { (e : Election) (party : ℕ) → is_met e party result ≡ (is_met e party first || is_met e party second) }
{
    if first.share.value * second.per <= second.share.value * first.per {
        first
    } else {
        second
    }
}

/// With one more condition.
fn add(few: Easiest, condition: Cond) -> Easiest
    requires few { IsFairIn few.valid }
    requires small { IsSmallIn few.winners }
    requires condition { IsFair condition }
    ensures fair { IsFairIn result.valid }
    ensures small { IsSmallIn result.winners }
    ensures same { (e : Election) (party : ℕ) → is_eligible (few_of result) e party ≡ (is_eligible (few_of few) e party || meets e party condition) }
{
    match condition {
        Cond::Valid { share, per } => {
            let share = Share { share, per };
            let valid = few.valid.map_or(share, |known| easier_share(known, share));
            Easiest {
                valid: Some(valid),
                ..few
            }
        }
        Cond::Winners { least } => Easiest {
            winners: Some(few.winners.map_or(least, |known| known.min(least))),
            ..few
        },
        Cond::Minority => Easiest {
            minority: true,
            ..few
        },
        Cond::All => Easiest { all: true, ..few },
    }
}

/// Of each kind of condition the one that is met most easily.
pub fn easiest(conditions: &[Cond]) -> Easiest
    requires { first_failing (condition_tests conditions.now) ≡ None }
    ensures same { SayTheSame (few_of result) conditions.now }
    ensures small { AreSmall (few_of result) }
{
    let mut few = Easiest {
        valid: None,
        winners: None,
        minority: false,
        all: false,
    };
    for condition in conditions {
        few = add(few, *condition);
    }
    few
}
