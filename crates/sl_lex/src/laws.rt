//! Laws of tokens, over their definitions alone.

ghost use Rattle.std.specs.Prelude.{◌≡◌, ℕ, List, Some, ◌⊎◌};
ghost use Rattle.sl_lex.specs.Keywords.{spelling, keyword_of};
ghost use Rattle.sl_lex.specs.Spans.{AreSpans};
ghost use Rattle.sl_lex.specs.Tokens.{AreTokens, IsFault, HasTokens, HasFault};
ghost use Rattle.sl_lex.specs.declared.fault.LexFault.{LexFault};
ghost use Rattle.sl_lex.specs.declared.keyword.Keyword.{Keyword};
ghost use Rattle.sl_lex.specs.declared.token.Token.{Token};

/// A text has at most one list of tokens.
pub fn one_list()
    ensures { (text : List ℕ) (a b : List Token) → AreTokens text a → AreTokens text b → a ≡ b }
{}

/// A text has at most one fault.
pub fn one_fault()
    ensures { (text : List ℕ) (a b : LexFault) → IsFault text a → IsFault text b → a ≡ b }
{}

/// A text that has tokens has no fault.
pub fn no_fault_of_tokens()
    ensures { (text : List ℕ) (tokens : List Token) (fault : LexFault) → AreTokens text tokens → IsFault text fault → ⊥ }
{}

/// A text has tokens or a fault.
pub fn tokens_or_fault()
    ensures { (text : List ℕ) → HasTokens text ⊎ HasFault text }
{}

/// The tokens of a text stand in it one after the other, and the bytes of each are those of its kind.
pub fn tokens_are_spans()
    ensures { (text : List ℕ) (tokens : List Token) → AreTokens text tokens → AreSpans 0 text tokens }
{}

/// The spelling of a keyword is that keyword.
pub fn keyword_of_spelling()
    ensures { (k : Keyword) → keyword_of (spelling k) ≡ Some k }
{}

/// A word is a keyword by its spelling alone.
pub fn spelling_of_keyword()
    ensures { (word : List ℕ) (k : Keyword) → keyword_of word ≡ Some k → word ≡ spelling k }
{}
