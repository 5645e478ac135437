//! The stages of a rulebook, and the base of its last clause.

ghost use Rattle.std.specs.Prelude.{◌≡◌, ◌≤◌, [], map, Some, None, MatchResult, IsTrue};
ghost use Rattle.sl_law_meaning.specs.book.Trees.{tree_of, stage_of};
ghost use Rattle.sl_law_meaning.specs.book.Limits.{parts_of, is_within_limits};
ghost use Rattle.sl_base_terms.specs.Tests.{first_failing, Judges};
ghost use Rattle.sl_law_meaning.specs.book.Typing.{type_of, stage_tests, stages_tests, columns_of, base_tests};
ghost use Rattle.sl_check.specs.inner.Known.{columns};

use crate::columns::Columns;
use crate::nodes::{same_shape, same_unit, test};
use crate::parts::splits_in;
use sl_law_meaning::{
    Base, CheckFault, ColumnType, LastClause, MAX_PARTS, MAX_STAGES, Shape, Stage, Unit,
};

impl<'a> Columns<'a> {
    /// The type of the next stage.
    fn stage_type(&self, stage: &Stage) -> Result<ColumnType, CheckFault>
        requires { parts_of (tree_of stage.now.expr) ≤ MAX_PARTS }
        ensures { let known = columns self.now.stages.now self.now.types.now
            in Judges result (stage_tests known (stage_of stage.now)) (type_of known (tree_of stage.now.expr)) }
    {
        test(!self.has(&stage.name), CheckFault::StageTwice(stage.at))?;
        test(splits_in(&stage.expr) <= 1, CheckFault::TwoSplits(stage.at))?;
        self.expr_type(&stage.expr)
    }

    /// Refuses a last clause whose base is no column of seats of lists.
    pub fn check_base(&self, last: &LastClause) -> Result<(), CheckFault>
        ensures { let known = columns self.now.stages.now self.now.types.now
            in Judges result (base_tests known last.now.at last.now.base) tt }
    {
        match &last.base {
            Base::Winners => Ok(()),
            Base::Stage(name) => {
                let of = self.name_type(last.at, name)?;
                let fits = same_shape(of.shape, Shape::List) && same_unit(of.unit, Unit::Seats);
                test(fits, CheckFault::SeatsShape(last.at))
            }
        }
    }
}

/// The types of the stages' columns, in order; what stands after them is of no stage.
pub fn stage_types(stages: &[Stage]) -> Result<[ColumnType; MAX_STAGES], CheckFault>
    requires { IsTrue (is_within_limits (map stage_of stages.now)) }
    ensures { let trees = map stage_of stages.now
        in let fault = first_failing (stages_tests [] trees)
        in MatchResult result
        (λ types. (fault ≡ None) × (columns stages.now types ≡ columns_of [] trees))
        (λ f. fault ≡ Some f) }
{
    let mut types = [ColumnType::seats(Shape::One); MAX_STAGES];
    for (i, stage) in stages.iter().enumerate() {
        let earlier = Columns {
            stages: &stages[..i],
            types: &types,
        };
        types[i] = earlier.stage_type(stage)?;
    }
    Ok(types)
}
