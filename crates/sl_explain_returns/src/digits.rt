//! Cells of digits.

use sl_returns::MAX_DIGITS;

/// Whether a cell is a number: some digits, and no more than it may have.
pub(crate) fn is_number(cell: &[u8]) -> bool {
    !cell.is_empty() && cell.len() <= MAX_DIGITS && are_digits(cell)
}

/// Whether each byte is a digit.
pub(crate) fn are_digits(cell: &[u8]) -> bool {
    cell.iter().all(|byte| byte.is_ascii_digit())
}
