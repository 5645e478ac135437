//! What the plans of a rulebook's parts achieve, a module a topic. Each function does nothing: its contract is the law.

pub mod arenas;
pub mod closing;
pub mod columns;
pub mod covers;
pub mod exprs;
pub mod facts;
pub mod nodes;
pub mod scopes;
