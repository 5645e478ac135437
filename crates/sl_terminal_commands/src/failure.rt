//! Why a command was not completed.

ghost use Rattle.std.specs.Prelude.{◌≡◌};
ghost use Rattle.sl_count_inputs.specs.declared.status.DeskError.TheVariants as fault;
ghost use Rattle.sl_terminal_commands.specs.declared.failure.Failure.TheVariants as failure;

use sl_base_quotients::NoMemory;
use sl_count_inputs::DeskError;
use sl_terminal_outside::Unopened;
use std::alloc::AllocFailed;

/// Why a command was not completed.
#[derive(Drop)]
pub enum Failure<'a, E> {
    /// A file could not be opened.
    Unopened(Unopened<'a, E>),
    /// A file could not be made, for a reason of the system.
    Unmade { path: &'a str, reason: E },
    /// A call failed.
    Call(DeskError),
}

impl<'a, E> From<Unopened<'a, E>> for Failure<'a, E> {
    ghost from_gives = { λ u f. f ≡ failure.Unopened u };

    fn from(unopened: Unopened<'a, E>) -> Self {
        Failure::Unopened(unopened)
    }
}

impl<E> From<DeskError> for Failure<'_, E> {
    ghost from_gives = { λ e f. f ≡ failure.Call e };

    fn from(error: DeskError) -> Self {
        Failure::Call(error)
    }
}

impl<E> From<NoMemory> for Failure<'_, E> {
    ghost from_gives = { λ _ f. f ≡ failure.Call fault.NoMemory };

    fn from(_error: NoMemory) -> Self {
        Failure::Call(DeskError::NoMemory)
    }
}

impl<E, T: Drop> From<AllocFailed<T>> for Failure<'_, E> {
    ghost from_gives = { λ _ f. f ≡ failure.Call fault.NoMemory };

    fn from(_error: AllocFailed<T>) -> Self {
        Failure::Call(DeskError::NoMemory)
    }
}
