//! The forms of splits and growths: what the entries are, and in which scopes.

ghost use Rattle.std.specs.Prelude.{◌≡◌};
ghost use Rattle.sl_compile_pieces.specs.declared.form.Form.{Form as SpecForm};
ghost use Rattle.sl_compile_pieces.specs.scopes.Forms.{table_of, kind_of};
ghost use Rattle.sl_blocks.specs.inner.Jobs.{IsJob};

use crate::job::Job;
use sl_code_instructions::{Entries, ScopeKind};
use sl_compile_pieces::Form;
use sl_law_meaning::Shape;

/// The form by the shapes of the amounts and of the votes.
pub fn form_of(slots: &[Shape], job: &Job) -> Form
    ensures { (f : SpecForm) → IsJob slots.now f job.now → result ≡ f }
{
    match (
        slots.get(job.amount as usize),
        slots.get(job.weights as usize),
    ) {
        (Some(Shape::Party), _) => Form::ListsOfParty,
        (Some(Shape::Land), _) => Form::ListsInLand,
        (_, Some(Shape::Party)) => Form::AllParties,
        (_, Some(Shape::Land)) => Form::AllLands,
        _ => Form::AllLists,
    }
}

/// What the entries of the priority table are.
pub fn table_of(form: Form) -> Entries
    ensures { result ≡ table_of form }
{
    match form {
        Form::AllParties => Entries::Party,
        Form::AllLands => Entries::Land,
        _ => Entries::List,
    }
}

/// The scope that the cursors stand at.
pub fn kind_of(form: Form) -> ScopeKind
    ensures { result ≡ kind_of form }
{
    match form {
        Form::ListsOfParty => ScopeKind::Party,
        Form::ListsInLand => ScopeKind::Land,
        _ => ScopeKind::All,
    }
}
