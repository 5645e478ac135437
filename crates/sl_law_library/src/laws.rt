//! Laws that join the library, the theorems on statutes and the program (docs/laws.md, docs/margins.md). Each function does nothing: its contract is
//! the law.

ghost use Rattle.sl_law_library.specs.Counts.{MissingIn2023};
ghost use Rattle.sl_law_library.specs.Names.{NamesCountByStatutes};
ghost use Rattle.sl_law_library.specs.Texts.{TextsHaveTheTrees};

/// Each text of the library is a rulebook, and its tree is that of the statute, with the offsets in the text; it has no other tree, and the library
/// has no other names.
pub fn texts_have_the_trees()
    ensures { TextsHaveTheTrees }
{}

/// What counting writes for the name of a statute, its seats, its steps or a column, it writes by the tree of that statute.
pub fn names_count_by_statutes()
    ensures { NamesCountByStatutes }
{
    sl_desk::laws::books_have_one_verdict();
    texts_have_the_trees();
}

/// By the statutes of 2023, with the order of 2024 or without it, a party whose list gains as many votes as the party lacks among the parties, or
/// more, has more seats in the table.
pub fn missing_in_2023()
    ensures { MissingIn2023 }
{}
