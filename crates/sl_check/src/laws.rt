//! What the definition of well-formed rulebooks implies.

pub use sl_law_meaning::laws::book::typed_expressions;
