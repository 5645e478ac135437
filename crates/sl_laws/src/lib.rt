//! The library: rulebooks by the names of their statutes, and the elections that were held under them.
//!
//! Stands on no other crate; used by the rooms count, explain and terminal. Proved: the text of each name.
#![tactic(auto)]

ghost use Rattle.std.specs.Prelude.{◌≡◌, ◌≤◌, IfSome, length, option_map};
ghost use Rattle.sl_laws.specs.Books.{law_text};

mod books;
mod elections;

pub use books::{STATUTES, Statute};
pub use elections::ELECTIONS;

/// The text of the library's rulebook of that name, if there is one (docs/laws.md).
#[tactic(auto, unfolding(crate::proofs::Statutes::text_among))]
pub fn law(name: &str) -> Option<&'static str>
    ensures text { option_map (λ text. text.now) result ≡ law_text name.now }
    ensures short { IfSome result (λ text. length text.now ≤ 1000) }
{
    for statute in &STATUTES {
        if name == statute.name {
            return Some(statute.text);
        }
    }
    None
}
