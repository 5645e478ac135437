//! What lies outside a program.

ghost use Rattle.std.specs.Prelude.{◌≡◌, ◌≢◌, IfErr, IfOk, IfSome, IsSome, List, None, Option, Some, [], ⊤, ℕ};

use sl_count_inputs::{Sink, Source};
use std::alloc::Global;
use std::fmt::Display;

/// What lies outside a command: files by their paths, and the variables of the environment.
pub trait Outside {
    /// A file that is read.
    type File: Source + Drop;

    /// Why a file cannot be opened or made.
    type Reason: Display + Drop;

    // The bytes of the file at a path, where they are known.
    ghost bytes: { Self → List ℕ → Option (List ℕ) } = { λ _ _. None };

    // That no file can be opened at a path, as far as that is known.
    ghost lacks: { Self → List ℕ → Type 0 } = { λ _ _. ⊤ };

    /// The file at a path, from its start on.
    ///
    /// # Errors
    ///
    /// The reason why it cannot be opened.
    fn open(&self, path: &str) -> Result<Self::File, Self::Reason>
        ensures lacks { IfErr result (λ _. lacks self.now path.now) }
        ensures bytes { IfOk result (λ f. Self.File.remaining f ≡ bytes self.now path.now) };

    /// The file at a path whose bytes are lost where the path is written: none where nothing lies there, or what keeps no bytes, as a device. Where the bytes
    /// of a path are known there is one.
    fn file_at(&self, path: &str) -> Option<Self::File>
        ensures bytes { IfSome result (λ f. Self.File.remaining f ≡ bytes self.now path.now) }
        ensures there { IsSome (bytes self.now path.now) → IsSome result };

    /// The value of a variable of the environment; none where it is not set or is no text.
    fn variable(&self, alloc: Global, name: &str) -> Option<String>;
}

/// What lies outside a program, where files are made as well.
pub trait Writable: Outside {
    /// A file that is written.
    type Made: Sink + Drop;

    // That the bytes of a file that is made are known, from its first on.
    ghost tells_made: { Self → Type 0 } = { λ _. ⊥ };

    /// An empty file for a path, to be written. No other path is changed.
    ///
    /// # Errors
    ///
    /// The reason why it cannot be made.
    fn create(&mut self, path: &str) -> Result<Self::Made, Self::Reason>
        ensures made { tells_made self.old → IfOk result (λ made. Self.Made.contents made ≡ Some []) }
        ensures others { (other : List ℕ) → other ≢ path.now → Self.bytes self.new other ≡ Self.bytes self.old other };

    /// Leaves what was made and written as the file at a path. No other path is changed.
    fn close(&mut self, path: &str, made: Self::Made)
        ensures made { Self.bytes self.new path.now ≡ Self.Made.contents made }
        ensures others { (other : List ℕ) → other ≢ path.now → Self.bytes self.new other ≡ Self.bytes self.old other };
}
