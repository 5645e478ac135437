//! Plans for each scope, and for each entry of a scope.

ghost use Rattle.std.specs.Prelude.{◌≡◌, List};
ghost use Rattle.sl_code_instructions.specs.declared.instr.Instr.{Instr};
ghost use Rattle.sl_compile_layout.specs.inner.Layout.{tree_of};
ghost use Rattle.sl_compile_plans.specs.declared.plan.Cursor.TheVariants as cursor;
ghost use Rattle.sl_compile_plans.specs.Trees.{Each};
ghost use Rattle.sl_compile_pieces.specs.scopes.Forms.{on_list, entries_plan, scopes_plan};
ghost use Rattle.sl_blocks.specs.inner.LayoutParts.{inside, entry_in};

use sl_compile_layout::{Cursor, Plan, Test};
use sl_compile_pieces::Form;

pub const NOTHING: &Plan<'static> = &Plan::Line(&[]);

/// The plan for each party that has a list in the Land at the cursors.
macro_rules! by_party {
    ($plan:expr) => {
        &Plan::Each(Cursor::Party, &Plan::If(Test::NoList, NOTHING, $plan))
    };
}

pub(crate) use by_party;

/// The plan in each turn, or where the test fails.
fn inside<'a>(plan: &'a Plan<'a>) -> &'a Plan<'a>
    ensures { (given : List Instr) → tree_of given result.now ≡ inside (tree_of given plan.now) }
{
    match plan {
        Plan::Each(_, body) => body,
        Plan::If(_, _, other) => other,
        _ => plan,
    }
}

/// The plan for each entry of the scope at the cursors, from that for each party that has a list there.
pub fn each_entry<'a>(form: Form, by_party: &'a Plan<'a>) -> Plan<'a>
    requires { (given : List Instr) → tree_of given by_party.now ≡ Each cursor.Party (on_list (entry_in (tree_of given by_party.now))) }
    ensures { (given : List Instr) → tree_of given result ≡ entries_plan form (entry_in (tree_of given by_party.now)) }
{
    let listed = inside(by_party);
    let plan = inside(listed);
    match form {
        Form::AllParties => Plan::Each(Cursor::Party, plan),
        Form::AllLands => Plan::Each(Cursor::Land, plan),
        Form::AllLists => Plan::Each(Cursor::Land, by_party),
        Form::ListsOfParty => Plan::Each(Cursor::Land, listed),
        Form::ListsInLand => *by_party,
    }
}

/// The plan for each scope.
pub fn each_scope<'a>(form: Form, plan: &'a Plan<'a>) -> Plan<'a>
    ensures { (given : List Instr) → tree_of given result ≡ scopes_plan form (tree_of given plan.now) }
{
    match form {
        Form::ListsOfParty => Plan::Each(Cursor::Party, plan),
        Form::ListsInLand => Plan::Each(Cursor::Land, plan),
        _ => *plan,
    }
}
