//! Lists that are filled from the begin to the end. Where memory runs out, they say so at their end.

ghost use Rattle.std.specs.Prelude.{◌≡◌, ◌++◌, ◌∷◌, [], Some, None, IfOk, IsOkAnd, OnErr, OnOk};
ghost use Rattle.sl_explain_texts.specs.Gains.{Gains};

use sl_base_quotients::NoMemory;
use std::alloc::Global;
use std::marker::Model;

/// A list that is being filled. What finds no memory is missing in it, and then `finished` gives the error in place of the list.
#[derive(Drop)]
pub struct Filled<T> {
    items: Vec<T>,
    is_whole: bool,
}

impl<T> Model for Filled<T> {
    ghost use Rattle.std.specs.Prelude.{List, Option, Some, None, if◌then◌else◌};

    ghost Value = { Option (List T) };

    ghost view = { λ f. if f.is_whole then Some f.items.items else None };
}

// Adds an item that was made, unless making it found no memory.
fn add<T: Drop>(items: &mut Vec<T>, item: Result<T, NoMemory>) -> Result<(), NoMemory>
    ensures { OnOk result (IsOkAnd item (λ x. items.new.items ≡ items.old.items ++ x ∷ [])) }
{
    items.push(item?)?;
    Ok(())
}

impl<T: Drop> Filled<T> {
    /// A list without an item. Takes no memory.
    pub fn new(alloc: Global) -> Filled<T>
        ensures { result ≡ Some [] }
    {
        Filled {
            items: Vec::new(alloc),
            is_whole: true,
        }
    }

    /// Adds an item that was made, unless making it found no memory.
    pub fn push(&mut self, item: Result<T, NoMemory>)
        ensures { Gains self.old self.new item }
    {
        let is_added = add(&mut self.items, item).is_ok();
        self.is_whole = self.is_whole && is_added;
    }

    /// The list, if all of it found memory.
    pub fn finished(self) -> Result<Vec<T>, NoMemory>
        ensures ok { IfOk result (λ v. self ≡ Some v.items) }
        ensures err { OnErr result (self ≡ None) }
    {
        if self.is_whole {
            Ok(self.items)
        } else {
            Err(NoMemory)
        }
    }
}
