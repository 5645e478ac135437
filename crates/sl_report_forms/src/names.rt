//! The names of what returns and books number, and what entries and scopes are called by them.

ghost use Rattle.std.specs.Prelude.{◌≡◌, ◌∷◌, IfOk, map, string_bytes};
ghost use Rattle.sl_report_forms.specs.NameTexts as spec;

use crate::draft::copied;
use crate::words::ALL;
use sl_base_quotients::NoMemory;
use sl_explain_texts::{Filled, Language};
use sl_law_meaning::{Item, Scope};
use std::alloc::Global;

/// A short name, and the full one that a reader sees.
#[derive(Drop)]
pub struct Name {
    pub short: String,
    pub full: String,
}

/// Which of the two.
#[derive(Clone, Copy)]
pub(crate) enum Length {
    Short,
    Full,
}

/// The names of Länder, parties and winners by their numbers, and of the stages of a book.
#[derive(Drop)]
pub struct Names {
    /// Whether full names were given: otherwise each is the short one.
    pub are_full: bool,
    pub lands: Vec<Name>,
    pub parties: Vec<Name>,
    pub winners: Vec<Name>,
    pub stages: Vec<String>,
}

// The name of that number, and no text where there is none.
fn name_in(names: &[Name], length: Length, number: usize) -> &str
    ensures { result.now ≡ spec.name_in names.now length number }
{
    match (names.get(number), length) {
        (Some(name), Length::Short) => name.short.as_str(),
        (Some(name), Length::Full) => name.full.as_str(),
        (None, _) => "",
    }
}

// What is named of an entry in a scope: of a list its Land in that of a party, and its party in that of a Land.
fn seen_in(scope: Scope, entry: Item) -> Item
    ensures { result ≡ spec.seen_in scope entry }
{
    match (entry, scope) {
        (Item::List(land, _), Scope::Party(_)) => Item::Land(land),
        (Item::List(_, party), Scope::Land(_)) => Item::Party(party),
        (_, _) => entry,
    }
}

impl Names {
    /// No names.
    pub fn none(alloc: Global) -> Names {
        Names {
            are_full: false,
            lands: Vec::new(alloc),
            parties: Vec::new(alloc),
            winners: Vec::new(alloc),
            stages: Vec::new(alloc),
        }
    }

    /// The name of the stage of that number, or `seats` after the last one.
    pub fn stage(&self, number: usize) -> &str
        ensures { result.now ≡ spec.stage_text self.now number }
    {
        match self.stages.get(number) {
            Some(stage) => stage.as_str(),
            None => "seats",
        }
    }

    fn land(&self, length: Length, number: usize) -> &str
        ensures { result.now ≡ spec.name_in self.now.lands.items length number }
    {
        name_in(self.lands.as_slice(), length, number)
    }

    fn party(&self, length: Length, number: usize) -> &str
        ensures { result.now ≡ spec.name_in self.now.parties.items length number }
    {
        name_in(self.parties.as_slice(), length, number)
    }

    // An entry by names of a length, a list by its Land and its party.
    fn whole(&self, alloc: Global, length: Length, entry: Item) -> Result<String, NoMemory>
        ensures { IfOk result (λ t. string_bytes t ≡ spec.entry_text self.now length entry) }
    {
        match entry {
            Item::Party(party) => copied(alloc, self.party(length, party)),
            Item::Land(land) => copied(alloc, self.land(length, land)),
            Item::List(land, party) => {
                let (land, party) = (self.land(length, land), self.party(length, party));
                Ok(format!(in alloc; "{land}/{party}")?)
            }
            Item::Win(win) => copied(alloc, name_in(self.winners.as_slice(), length, win)),
        }
    }

    /// An entry by names of a length, as it is seen in a scope.
    pub(crate) fn text(
        &self,
        alloc: Global,
        length: Length,
        scope: Scope,
        entry: Item,
    ) -> Result<String, NoMemory>
        ensures { IfOk result (λ t. string_bytes t ≡ spec.text_in self.now length scope entry) }
    {
        self.whole(alloc, length, seen_in(scope, entry))
    }

    fn texts(
        &self,
        alloc: Global,
        length: Length,
        scope: Scope,
        entries: &[Item],
    ) -> Result<Vec<String>, NoMemory>
        ensures { IfOk result (λ v. map string_bytes v.items ≡ map (spec.text_in self.now length scope) entries.now) }
    {
        let mut texts = Filled::new(alloc);
        for entry in entries {
            texts.push(self.text(alloc, length, scope, *entry));
        }
        texts.finished()
    }

    /// The texts of entries with a mark between them.
    pub(crate) fn list(
        &self,
        alloc: Global,
        length: Length,
        scope: Scope,
        entries: &[Item],
        mark: &str,
    ) -> Result<String, NoMemory>
        ensures { IfOk result (λ t. string_bytes t ≡ spec.list_text self.now length scope mark.now entries.now) }
    {
        let texts = self.texts(alloc, length, scope, entries)?;
        Ok(texts.join(alloc, mark)?)
    }

    /// A scope by its short names, as the line of a seat has it.
    pub(crate) fn scope(&self, alloc: Global, scope: Scope) -> Result<String, NoMemory>
        ensures { IfOk result (λ t. string_bytes t ≡ spec.scope_text self.now scope) }
    {
        match scope {
            Scope::All => copied(alloc, "all"),
            Scope::Land(land) => {
                let land = self.land(Length::Short, land);
                Ok(format!(in alloc; "land {land}")?)
            }
            Scope::Party(party) => {
                let party = self.party(Length::Short, party);
                Ok(format!(in alloc; "party {party}")?)
            }
            Scope::List(land, party) => {
                let land = self.land(Length::Short, land);
                let party = self.party(Length::Short, party);
                Ok(format!(in alloc; "list {land} {party}")?)
            }
        }
    }

    /// The name of a scope that a reader sees, in a language.
    pub fn scope_name(
        &self,
        alloc: Global,
        language: Language,
        scope: Scope,
    ) -> Result<String, NoMemory>
        ensures { IfOk result (λ t. string_bytes t ≡ spec.scope_name language self.now scope) }
    {
        match scope {
            Scope::All => copied(alloc, language.text(&ALL)),
            Scope::Land(land) => self.whole(alloc, Length::Full, Item::Land(land)),
            Scope::Party(party) => self.whole(alloc, Length::Full, Item::Party(party)),
            Scope::List(land, party) => self.whole(alloc, Length::Full, Item::List(land, party)),
        }
    }
}
