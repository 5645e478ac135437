//! Laws of the grammar and of its faults.

ghost use Rattle.std.specs.Prelude.{◌≡◌, List, ℕ, [], IsTrue, ◌⊎◌};
ghost use Rattle.sl_lex.specs.declared.token.Token.{Token};
ghost use Rattle.sl_law_meaning.specs.book.Trees.{BookTree};
ghost use Rattle.sl_law_meaning.specs.book.Limits.{is_within_limits};
ghost use Rattle.sl_parse.specs.declared.fault.Cause.{Cause};
ghost use Rattle.sl_parse.specs.Grammar.{IsBook};
ghost use Rattle.sl_parse.specs.Faults.{IsFault};
ghost use Rattle.sl_parse.specs.Parsing.{limits, HasBook, HasFault};

/// A token list is one book at most.
pub fn one_tree()
    ensures { (text : List ℕ) (tokens : List Token) (a b : BookTree) →
        IsBook text a tokens [] → IsBook text b tokens [] → a ≡ b }
{}

/// Tokens have one fault at most: one cause, at one place.
pub fn one_fault()
    ensures { (text : List ℕ) (tokens : List Token) (a b : Cause) (x y : List Token) →
        IsFault text limits tokens a x → IsFault text limits tokens b y → (a ≡ b) × (x ≡ y) }
{}

/// Tokens that are a book within the limits have none.
pub fn no_fault_of_a_book()
    ensures { (text : List ℕ) (tokens : List Token) (tree : BookTree) (cause : Cause) (rest : List Token) →
        IsBook text tree tokens [] → IsTrue (is_within_limits tree.stages) → IsFault text limits tokens cause rest → ⊥ }
{}

/// Tokens are a book within the limits, or have a fault.
pub fn book_or_fault()
    ensures { (text : List ℕ) (tokens : List Token) → HasBook text tokens ⊎ HasFault text tokens }
{}
