//! Growing a list of bytes.

ghost use Rattle.std.specs.Prelude.{◌≡◌, [], ◌∷◌, ◌++◌, OnOk};
ghost use Rattle.sl_code.specs.Operands.{two_bytes, four_bytes, eight_bytes};

use sl_base_quotients::NoMemory;

/// Adds a byte at the end.
pub(crate) fn push(bytes: &mut Vec<u8>, byte: u8) -> Result<(), NoMemory>
    ensures { OnOk result (bytes.new.items ≡ bytes.old.items ++ byte ∷ []) }
{
    bytes.push(byte)?;
    Ok(())
}

/// Adds bytes at the end.
pub(crate) fn extend(bytes: &mut Vec<u8>, more: &[u8]) -> Result<(), NoMemory>
    ensures { OnOk result (bytes.new.items ≡ bytes.old.items ++ more.now) }
{
    bytes.extend_from_slice(more)?;
    Ok(())
}

/// Adds a number in two bytes, least first.
#[tactic(auto, unfolding(crate::specs::Operands::two_bytes))]
pub(crate) fn extend_two(bytes: &mut Vec<u8>, number: u16) -> Result<(), NoMemory>
    ensures { OnOk result (bytes.new.items ≡ bytes.old.items ++ two_bytes number) }
{
    extend(bytes, &number.to_le_bytes())
}

/// Adds a number in four bytes, least first.
#[tactic(auto, unfolding(crate::specs::Operands::four_bytes))]
pub(crate) fn extend_four(bytes: &mut Vec<u8>, number: u32) -> Result<(), NoMemory>
    ensures { OnOk result (bytes.new.items ≡ bytes.old.items ++ four_bytes number) }
{
    extend(bytes, &number.to_le_bytes())
}

/// Adds a number in eight bytes, least first.
#[tactic(auto, unfolding(crate::specs::Operands::eight_bytes))]
pub(crate) fn extend_eight(bytes: &mut Vec<u8>, number: u64) -> Result<(), NoMemory>
    ensures { OnOk result (bytes.new.items ≡ bytes.old.items ++ eight_bytes number) }
{
    extend(bytes, &number.to_le_bytes())
}
