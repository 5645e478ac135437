//! What holds of every plan.

ghost use Rattle.sl_compile_plans.specs.Costs.{PlansCostTheirPrice, SharesSuffice};
ghost use Rattle.sl_compile_plans.specs.Fine.{FinePlansPass, PlansJumpWithin};
ghost use Rattle.sl_compile_plans.specs.Following.{PlansAreFollowed};
ghost use Rattle.sl_compile_plans.specs.Sums.{ColumnsAreSummed, SumsAreAccepted};
ghost use Rattle.sl_compile_plans.specs.Frames.{PlansKeepTheRest};

/// Wherever the instructions of a plan stand, the machine does what the plan says, within the plan's cost.
pub fn plans_are_followed()
    ensures { PlansAreFollowed }
{}

/// What a plan cannot write stays as it was.
pub fn plans_keep_the_rest()
    ensures { PlansKeepTheRest }
{}

/// A plan costs its price.
pub fn plans_cost_their_price()
    ensures { PlansCostTheirPrice }
{}

/// A plan with no number of its price above a share's takes at most a share.
pub fn shares_suffice()
    ensures { SharesSuffice }
{}

/// A plan of 11 instructions sums a column over all lists.
pub fn columns_are_summed()
    ensures { ColumnsAreSummed }
{}

/// The verifier accepts the instructions of a fine plan, and finds the plan's kinds after them.
pub fn fine_plans_pass()
    ensures { FinePlansPass }
{}

/// The jumps of a plan stay within its instructions.
pub fn plans_jump_within()
    ensures { PlansJumpWithin }
{}

/// The verifier accepts the instructions of that plan.
pub fn sums_are_accepted()
    ensures { SumsAreAccepted }
{}
