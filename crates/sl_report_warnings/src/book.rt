//! Warnings of a rulebook and returns together.

ghost use Rattle.std.specs.List.{list_any, range_with_len};
ghost use Rattle.std.specs.Option.{option_map};
ghost use Rattle.std.specs.Prelude.{◌≡◌, ◌<◌, ◌++◌, ◌∷◌, [], IfOk, OnOk, flat_map, length, map};
ghost use Rattle.sl_check.specs.Names.{names_one_of};
ghost use Rattle.sl_law_meaning.specs.book.Books.{book_of};
ghost use Rattle.sl_law_meaning.specs.book.Trees.{stage_of};
ghost use Rattle.sl_law_meaning.specs.returns.Facts.{all_valid_votes};
ghost use Rattle.sl_report_warnings.specs.Warnings.{has_few, house_for, is_base, is_named, is_threshold, of_book, of_house, of_numbers, of_stage, warned, warnings_of};
ghost use Rattle.sl_report_warnings.specs.declared.warning.Warning.TheVariants.{FewVotes};

use crate::lots::warn_of_lots;
use crate::returns::{warn, warn_of_returns};
use crate::takers::{taking_part, warn_of_takers};
use crate::warning::Warning;
use sl_base_quotients::NoMemory;
use sl_check::names_one_of;
use sl_report_parties::{WinnerCounts, all_votes, house_of, parts_of};
use sl_stages::{Base, Book, Cond, Returns, Stage, Word};
use std::alloc::Global;
use std::slice::from_ref;

// With fewer parties than these a threshold is likely one of too few votes.
const FEW_PARTIES: usize = 10;

// With fewer valid votes for each seat the votes of a house of so many seats are likely percentages.
const VOTES_FOR_SEAT: u128 = 100;

const LARGE_HOUSE: u64 = 100;

// Warns of another house than the rulebook's.
fn warn_of_house(found: &mut Vec<Warning>, book: &Book, returns: &Returns) -> Result<(), NoMemory>
    ensures { OnOk result (found.new.items ≡ found.old.items ++ of_house (book_of book.now) returns.now.house) }
{
    let own = book.house.value;
    match returns.house() {
        Some(house) => {
            let warning = Warning::OtherHouse {
                returns: house,
                book: own,
            };
            warn(found, house != own, warning)
        }
        None => Ok(()),
    }
}

// Whether a condition is one on votes.
fn is_threshold(cond: Cond) -> bool
    ensures { result ≡ is_threshold cond }
{
    match cond {
        Cond::Valid { .. } => true,
        Cond::Winners { .. } => false,
        Cond::Minority => false,
        Cond::All => false,
    }
}

// Whether some conditions have one on votes.
fn has_threshold(conditions: &[Cond]) -> bool
    ensures { result ≡ list_any is_threshold conditions.now }
{
    for cond in conditions {
        if is_threshold(*cond) {
            return true;
        }
    }
    false
}

// Warns of votes that are too few for the seats of the house.
fn warn_of_votes(found: &mut Vec<Warning>, book: &Book, returns: &Returns) -> Result<(), NoMemory>
    ensures { OnOk result (found.new.items ≡ found.old.items ++ warned (has_few (book_of book.now) returns.now) (FewVotes (all_valid_votes returns.now) (house_for (book_of book.now) returns.now))) }
{
    let votes = all_votes(returns).valid;
    let seats = house_of(book, returns);
    let is_few = u128::from(votes) < VOTES_FOR_SEAT * u128::from(seats);
    let has_few = seats >= LARGE_HOUSE && (votes >= 1 && is_few);
    warn(found, has_few, Warning::FewVotes { votes, seats })
}

// Warns of numbers that a rulebook and returns have together.
#[tactic(auto, using(std::proofs::Common::append_assoc))]
fn warn_of_numbers(found: &mut Vec<Warning>, book: &Book, returns: &Returns) -> Result<(), NoMemory>
    ensures { OnOk result (found.new.items ≡ found.old.items ++ of_numbers (book_of book.now) returns.now) }
{
    warn_of_house(found, book, returns)?;
    let parties = returns.parties();
    let are_few = parties < FEW_PARTIES && has_threshold(book.eligible.as_slice());
    warn(found, are_few, Warning::FewParties { parties })?;
    warn_of_votes(found, book, returns)
}

// Whether the last clause distributes the seats of that stage.
fn is_base(base: &Base, name: &Word) -> bool
    ensures { result ≡ is_base name.now base.now }
{
    match base {
        Base::Winners => false,
        Base::Stage(own) => own.as_bytes() == name.as_bytes(),
    }
}

// Whether the expression of one of these stages names that stage.

fn is_used(stages: &[Stage], name: &Word) -> bool
    ensures { result ≡ list_any (λ s. names_one_of (name.now ∷ []) s.expr) (map stage_of stages.now) }
{
    for stage in stages {
        if names_one_of(&stage.expr, from_ref(name)) {
            return true;
        }
    }
    false
}

// Whether a stage or the last clause names that stage.
fn is_named(book: &Book, name: &Word) -> bool
    ensures { result ≡ is_named (book_of book.now) name.now }
{
    is_base(&book.last.base, name) || is_used(book.stages.as_slice(), name)
}

// Warns of a stage that no other clause names.
fn warn_of_stage(found: &mut Vec<Warning>, book: &Book, number: usize) -> Result<(), NoMemory>
    requires { number < length (book_of book.now).stages }
    ensures { OnOk result (found.new.items ≡ found.old.items ++ of_stage (book_of book.now) number) }
{
    let is_named = is_named(book, &book.stages[number].name);
    warn(found, !is_named, Warning::StageUnused { stage: number + 1 })
}

// Warns of stages that no other clause names.
fn warn_of_stages(found: &mut Vec<Warning>, book: &Book) -> Result<(), NoMemory>
    ensures { OnOk result (found.new.items ≡ found.old.items ++ flat_map (of_stage (book_of book.now)) (range_with_len 0 (length (book_of book.now).stages))) }
{
    for number in 0..book.stages.len() {
        warn_of_stage(found, book, number)?;
    }
    Ok(())
}

// Warns of what is likely a mistake in a rulebook and returns together.
#[tactic(auto, using(std::proofs::Common::append_assoc))]
fn warn_of_book(
    alloc: Global,
    found: &mut Vec<Warning>,
    book: &Book,
    returns: &Returns,
) -> Result<(), NoMemory>
    ensures { OnOk result (found.new.items ≡ found.old.items ++ of_book (book_of book.now) returns.now) }
{
    let parts = parts_of(alloc, book.eligible.as_slice(), returns)?;
    let parties = taking_part(alloc, book, returns, parts.as_slice())?;
    warn_of_lots(found, book, returns, parts.as_slice())?;
    warn_of_numbers(found, book, returns)?;
    warn_of_takers(found, returns, parties.as_slice())?;
    warn_of_stages(found, book)
}

/// What is likely a mistake in returns, and with a rulebook in the two together: of the returns by Land and then by party, of the lots in the order of
/// their records, of the house, of parties and votes, and of the stages of the rulebook.
#[tactic(auto, using(std::proofs::Common::append_assoc))]
pub fn warnings_of(
    alloc: Global,
    book: Option<&Book>,
    returns: &Returns,
) -> Result<Vec<Warning>, NoMemory>
    ensures { IfOk result (λ found. found.items ≡ warnings_of (option_map (λ b. book_of b.now) book.entry) returns.now) }
{
    let mut found = Vec::new(alloc);
    warn_of_returns(&mut found, &WinnerCounts::new(alloc, returns)?)?;
    if let Some(book) = book {
        warn_of_book(alloc, &mut found, book, returns)?;
    }
    Ok(found)
}
