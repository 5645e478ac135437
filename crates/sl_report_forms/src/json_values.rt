//! Values of JSON: texts, numbers, and the members of an object.

ghost use Rattle.std.specs.Prelude.{◌≡◌, ◌∷◌, [], IfOk, IfSome, IsOk, OnErr, OnOk, is_some, map, option_map};
ghost use Rattle.serde_json.specs.Data.{number as json_number, object, string, unsigned};
ghost use Rattle.serde_json.specs.Find.{get_member};
ghost use Rattle.serde_json.specs.View.{members_view, view};
ghost use Rattle.sl_report_forms.specs.JsonForm.{NestsWithin, Puts, array_of, text_or_null, with_members};

use serde_json::{Map, Number, Value, put};
use sl_base_quotients::NoMemory;
use sl_explain_texts::Filled;
use std::alloc::Global;
use std::marker::Model;

pub(crate) fn text_value(alloc: Global, text: &str) -> Result<Value, NoMemory>
    ensures { IfOk result (λ v. view v ≡ string text.now) }
{
    Ok(Value::String(String::from_str(alloc, text)?))
}

/// A text of bytes that are UTF-8, and null of any others.
pub(crate) fn bytes_value(alloc: Global, bytes: &[u8]) -> Result<Value, NoMemory>
    ensures { IfOk result (NestsWithin 0) }
{
    match std::str::from_utf8(bytes) {
        Ok(text) => text_value(alloc, text),
        Err(_) => Ok(Value::Null),
    }
}

/// An array, if all of its values found memory.
pub(crate) fn array_value(values: Filled<Value>) -> Result<Value, NoMemory>
    ensures { IfOk result (λ v. option_map (λ vs. array_of (map view vs)) values ≡ Some (view v)) }
{
    Ok(Value::Array(values.finished()?))
}

// A text, or null.
fn maybe_text(alloc: Global, text: Option<&str>) -> Result<Value, NoMemory>
    ensures { IfOk result (λ v. view v ≡ text_or_null (option_map (λ t. t.now) text.entry)) }
{
    match text {
        Some(text) => text_value(alloc, text),
        None => Ok(Value::Null),
    }
}

/// The members of an object that is being filled. What finds no memory is missing in it, and then `finished` gives the error in place of the object.
#[derive(Drop)]
pub(crate) struct Members {
    alloc: Global,
    map: Map<String, Value>,
    is_whole: bool,
}

impl Model for Members {
    ghost use Rattle.std.specs.Prelude.{List, Option, Some, None, if◌then◌else◌};
    ghost use Rattle.std.specs.Coded.{codes};
    ghost use Rattle.serde_json.specs.contracts.value.Value as values;
    ghost use Rattle.sl_report_forms.specs.JsonForm.{Entry};

    ghost Value = { Option (List Entry) };

    ghost coded = { Prim.hlevel (codes, values.the_row.coded) };

    ghost view = { λ m. if m.is_whole then Some m.map.entries else None };
}

// Adds a member whose value was made, unless making it found no memory.
fn add(
    alloc: Global,
    map: &mut Map<String, Value>,
    key: &str,
    value: Result<Value, NoMemory>,
) -> Result<(), NoMemory>
    ensures { OnOk result (IsOk value × IfOk value (λ v. members_view map.new.entries
        ≡ with_members (members_view map.old.entries) ((key.now, view v) ∷ []))) }
{
    put(map, alloc, key, value?)?;
    Ok(())
}

impl Members {
    /// An object without members. Takes no memory.
    pub(crate) fn new(alloc: Global) -> Members
        ensures { result ≡ Some [] }
    {
        Members {
            alloc,
            map: Map::new(alloc),
            is_whole: true,
        }
    }

    pub(crate) fn has(&self, key: &str) -> bool
        ensures { IfSome self.now (λ es. result ≡ is_some (get_member key.now (members_view es))) }
    {
        self.map.contains_key(key)
    }

    /// Adds a member whose value was made, unless making it found no memory.
    pub(crate) fn put(&mut self, key: &str, value: Result<Value, NoMemory>)
        ensures made { IfOk value (λ v. Puts self.old self.new ((key.now, view v) ∷ [])) }
        ensures missing { OnErr value (self.new ≡ None) }
    {
        let is_added = add(self.alloc, &mut self.map, key, value).is_ok();
        self.is_whole = self.is_whole && is_added;
    }

    /// Adds a member that is a text, or null.
    pub(crate) fn put_text(&mut self, key: &str, text: Option<&str>)
        ensures { Puts self.old self.new ((key.now, text_or_null (option_map (λ t. t.now) text.entry)) ∷ []) }
    {
        self.put(key, maybe_text(self.alloc, text));
    }

    /// Adds a member that is a number.
    pub(crate) fn put_number(&mut self, key: &str, number: usize)
        ensures { Puts self.old self.new ((key.now, json_number (unsigned number)) ∷ []) }
    {
        self.put(key, Ok(Value::Number(Number::from(number))));
    }

    /// The object, if all of its members found memory.
    pub(crate) fn finished(self) -> Result<Value, NoMemory>
        ensures ok { IfOk result (λ v. option_map (λ es. object (members_view es)) self ≡ Some (view v)) }
        ensures err { OnErr result (self ≡ None) }
    {
        if self.is_whole {
            Ok(Value::Object(self.map))
        } else {
            Err(NoMemory)
        }
    }
}
