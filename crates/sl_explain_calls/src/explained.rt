//! What is explained.

use sl_count_inputs::Input;
use sl_explain_texts::Explanation;

/// What is said of a fault, and the input of whose file it speaks.
#[derive(Drop)]
pub struct Explained {
    pub input: Input,
    pub explanation: Explanation,
}
