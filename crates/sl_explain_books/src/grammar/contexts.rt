//! What to write at a place, by what may stand there.

ghost use Rattle.sl_explain_texts.specs.Messages.{IsFilledBy};

use crate::beginning::Sort;
use crate::texts::grammar as texts;
use sl_explain_texts::Message;
use sl_lex::{Keyword, Mark};

// Whether a keyword may stand there.
fn takes(sorts: &[Sort], word: Keyword) -> bool {
    sorts.contains(&Sort::Keyword(word))
}

/// What to write where tokens of these sorts may stand. The first row that fits is said.
pub fn remedy(sorts: &[Sort]) -> &'static Message
    ensures { IsFilledBy result.now 0 }
{
    match () {
        () if takes(sorts, Keyword::Rulebook) => &texts::BEGINNING,
        () if sorts.contains(&Sort::Text) => &texts::LAW_TEXT,
        () if takes(sorts, Keyword::Or) => &texts::JOINED,
        () if takes(sorts, Keyword::Valid) => &texts::CONDITIONS,
        () if takes(sorts, Keyword::Per) => &texts::PER,
        () if takes(sorts, Keyword::At) || takes(sorts, Keyword::Least) => &texts::PER,
        () if takes(sorts, Keyword::Counted) => &texts::EXPRESSION,
        () if takes(sorts, Keyword::Webster) => &texts::METHODS,
        () if takes(sorts, Keyword::Party) => &texts::AXES,
        () if takes(sorts, Keyword::Atleast) => &texts::OPTIONS,
        () if takes(sorts, Keyword::Majority) => &texts::MAJORITY,
        () if takes(sorts, Keyword::Prefer) || takes(sorts, Keyword::Refuse) => &texts::MAJORITY,
        () if takes(sorts, Keyword::Stage) => &texts::STAGE_OR_SEATS,
        () if takes(sorts, Keyword::Keep) => &texts::SEATING,
        () if takes(sorts, Keyword::Winners) => &texts::BASE,
        () if sorts.contains(&Sort::Mark(Mark::Equals)) => &texts::STAGE,
        () if takes(sorts, Keyword::Law) || takes(sorts, Keyword::House) => &texts::ORDER,
        () if takes(sorts, Keyword::Eligible) || takes(sorts, Keyword::Seats) => &texts::ORDER,
        () if sorts.contains(&Sort::Mark(Mark::Close)) => &texts::CLOSED,
        () if sorts.contains(&Sort::Mark(Mark::Open)) => &texts::FORMS_LISTED,
        () if sorts.contains(&Sort::Mark(Mark::Comma)) => &texts::FORMS_LISTED,
        () if sorts.contains(&Sort::Number) => &texts::NUMBER_REMEDY,
        () if sorts.contains(&Sort::Name) => &texts::NAME_REMEDY,
        () if sorts.contains(&Sort::Vacate) => &texts::SEATING,
        () => &texts::END,
    }
}
