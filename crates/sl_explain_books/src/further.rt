//! Explains the first test that a rulebook fails, with the further clauses that are refused, in a line each.

ghost use Rattle.std.specs.Prelude.{[], ◌++◌, ◌∷◌, ◌≡◌, IfOk, List, OnOk, Some};
ghost use Rattle.sl_explain_books.specs.Codes.{test_code};
ghost use Rattle.sl_explain_books.specs.Further.{Tells, TellsAll};
ghost use Rattle.sl_explain_texts.specs.Explainers.{Keeps};
ghost use Rattle.sl_law_meaning.specs.book.Books.{book_of};
ghost use Rattle.sl_law_meaning.specs.declared.check_fault.CheckFault.{CheckFault};

use crate::clause::Clause;
use crate::left_out::without;
use crate::tests::Written;
use crate::texts::further::{ALSO, LINE, MORE};
use sl_base_quotients::NoMemory;
use sl_check::check;
use sl_explain_texts::{Explainer, Explanation, Language, Speaker};
use sl_law_meaning::{Book, CheckFault};
use std::alloc::Global;

/// How many of the further clauses that are refused have a line.
pub const MAX_FURTHER: usize = 20;

// The lines of further clauses, and how many have none.
#[derive(Drop)]
pub struct Further {
    lines: Vec<Vec<u8>>,
    more: u64,
}

// The line of a fault of what is left of a rulebook: what its own explanation says of it first. Names are sought in the whole rulebook.
fn line_of(written: &Written<'_>, left: &Book, fault: CheckFault) -> Result<Vec<u8>, NoMemory> {
    let book = match fault {
        CheckFault::StageUnknown(_) => written.book,
        _ => left,
    };
    let own = Written { book, ..*written }.explain(fault)?.finished()?;
    let line = written.line(own.span().map_or(0, |span| span.start))?;
    written
        .speaker
        .text(&LINE, &[line.as_slice(), own.sentence()])
}

impl Further {
    // Adds a fault of what is left of a rulebook.
    fn add(&mut self, written: &Written<'_>, left: &Book, fault: CheckFault) -> Result<(), NoMemory>
        ensures { (fs : List CheckFault) → Tells self.old fs → OnOk result (Tells self.new (fs ++ fault ∷ [])) }
    {
        if self.lines.len() < MAX_FURTHER {
            self.lines.push(line_of(written, left, fault)?)?;
        } else {
            // no text in memory has so many clauses
            self.more = self.more.checked_add(1).ok_or(NoMemory)?;
        }
        Ok(())
    }

    // Those of a rulebook after its first fault.
    fn of(written: &Written<'_>, fault: CheckFault) -> Result<Further, NoMemory>
        ensures { IfOk result (TellsAll (book_of written.now.book.now) fault) }
    {
        let alloc = written.speaker.alloc;
        let mut further = Further {
            lines: Vec::new(alloc),
            more: 0,
        };
        let mut left = without(alloc, written.book, Clause::of(written.book, fault))?;
        // no text in memory has so many clauses
        for _ in 0..u64::MAX {
            match check(left) {
                Ok(_) => return Ok(further),
                Err((refused, fault)) => {
                    further.add(written, &refused, fault)?;
                    left = without(alloc, &refused, Clause::of(&refused, fault))?;
                }
            }
        }
        Err(NoMemory)
    }

    // Writes them after an explanation. Nothing where there are none.
    fn write(self, explainer: &mut Explainer)
        ensures { Keeps explainer.old explainer.new }
    {
        let speaker = explainer.speaker();
        if !self.lines.is_empty() {
            explainer.line(speaker.text(&ALSO, &[]));
        }
        for line in self.lines {
            explainer.line(Ok(line));
        }
        if self.more > 0 {
            explainer.line(speaker.text_with(&MORE, speaker.number(self.more as usize)));
        }
    }
}

/// Explains the first test that the rulebook of a text fails, and says which further ones it fails, each clause with a fault left out for those
/// after it, and how many more there are.
pub fn explain_test(
    alloc: Global,
    language: Language,
    text: &[u8],
    book: &Book,
    fault: CheckFault,
) -> Result<Explanation, NoMemory>
    ensures { IfOk result (λ x. x.code ≡ Some (test_code fault)) }
{
    let written = Written {
        speaker: Speaker { alloc, language },
        text,
        book,
    };
    let mut explainer = written.explain(fault)?;
    Further::of(&written, fault)?.write(&mut explainer);
    explainer.finished()
}
