//! What is shown of a count.

ghost use Rattle.std.specs.Prelude.{◌≡◌, option_map};

use sl_stages::Records;

/// What is shown of a count.
#[derive(Clone, Copy)]
pub enum View<'a> {
    /// The seats, as `count` shows them.
    Seats,
    /// Each seat with the step that won it, and the seats, as `steps` shows them.
    Steps,
    /// The column of the stage of that name, as `stage` shows it.
    Stage(&'a str),
}

impl<'a> View<'a> {
    ghost use Rattle.sl_count_calls.specs.Views.{records_for, stage_of};

    /// The records that it needs: the steps of the seats where it shows them.
    pub fn records(self) -> Records
        ensures { result ≡ records_for self.entry }
    {
        match self {
            View::Steps => Records::Kept,
            View::Seats | View::Stage(_) => Records::Dropped,
        }
    }

    /// The name of the stage that it asks for, if it does.
    pub fn stage(self) -> Option<&'a str>
        ensures { option_map (λ name. name.now) result ≡ stage_of self.entry }
    {
        match self {
            View::Stage(name) => Some(name),
            View::Seats | View::Steps => None,
        }
    }
}
