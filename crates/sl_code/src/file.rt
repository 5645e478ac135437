//! Reads a code file.

ghost use Rattle.std.specs.Prelude.{◌≡◌, ◌∷◌, ◌++◌, ◌<◌, ◌≤◌, [], length, flat_map, All, IsTrue, IfOk, IfErr, OnOk};
ghost use Rattle.sl_base_terms.specs.declared.limits.TheConstants.{MAX_STAGES as most_stages};
ghost use Rattle.sl_base_terms.specs.Words.{is_letter};
ghost use Rattle.sl_code_instructions.specs.declared.code.TheConstants.{MAX_SLOTS as most_slots, MAX_INSTRS as most_instrs};
ghost use Rattle.sl_code.specs.declared.fault.Cause.TheVariants as causes;
ghost use Rattle.sl_code.specs.Operands.{four_bytes};
ghost use Rattle.sl_code.specs.Spelling.{opening, instr_bytes, stage_bytes, stages_part, slots_part, instrs_part, spelling_of};
ghost use Rattle.sl_code_instructions.specs.Proper.{IsStage, IsInRange, IsProper};
ghost use Rattle.sl_code.specs.Faults.{FailsTests, FailsOpening, FailsCount, FailsLongCount, FailsElement, FailsStage, FailsStages, FailsShape, FailsSlots, FailsInstr, FailsInstrs, FailsFile, IsAny, shape_bytes, is_byte, is_name_length, is_name_byte, name_tests, fault_of, stop_at};
ghost use Rattle.sl_code.specs.Reading.{FailsAhead, IsReading, Refuses, IsName};

use crate::fault::{Cause, CodeFault, Refusal, Stop};
use crate::reader::Reader;
use sl_base_quotients::MAX_NAME_BYTES;
use sl_code_instructions::{Code, CodeStage, Instr, MAX_INSTRS, MAX_SLOTS};
use sl_law_meaning::{MAX_STAGES, Shape, Word};
use std::alloc::Global;

impl<'a> Reader<'a> {
    // ---- the opening

    /// This byte, or else that fault.
    fn exactly(&mut self, byte: u8, wrong: Stop) -> Result<(), Stop>
        ensures ok { OnOk result (self.old ≡ byte ∷ self.new) }
        ensures err { IfErr result (FailsTests (λ _. wrong) (is_byte byte ∷ []) self.old) }
    {
        if self.byte()? != byte {
            return Err(wrong);
        }
        Ok(())
    }

    fn letters(&mut self) -> Result<(), Stop>
        ensures ok { OnOk result (self.old ≡ 0x53 ∷ 0x4c ∷ 0x43 ∷ self.new) }
        ensures err { IfErr result (FailsTests (λ _. stop_at causes.Magic self.old) (is_byte 0x53 ∷ is_byte 0x4c ∷ is_byte 0x43 ∷ []) self.old) }
    {
        let wrong = self.stop(Cause::Magic);
        self.exactly(b'S', wrong)?;
        self.exactly(b'L', wrong)?;
        self.exactly(b'C', wrong)
    }

    fn version(&mut self) -> Result<(), Stop>
        ensures ok { OnOk result (self.old ≡ 1 ∷ self.new) }
        ensures err { IfErr result (FailsTests (stop_at causes.Version) (is_byte 1 ∷ []) self.old) }
    {
        let wrong = self.stop(Cause::Version);
        self.exactly(1, wrong)
    }

    fn opening(&mut self) -> Result<(), Stop>
        ensures ok { OnOk result (self.old ≡ opening ++ self.new) }
        ensures err { IfErr result (FailsOpening self.old) }
    {
        self.letters()?;
        self.version()
    }

    // ---- counts

    /// A number of elements in one byte.
    fn count(&mut self, most: u8) -> Result<u8, Stop>
        ensures ok { IfOk result (λ n. (self.old ≡ n ∷ self.new) × (n ≤ most)) }
        ensures err { IfErr result (FailsCount most self.old) }
    {
        let wrong = self.stop(Cause::Limit);
        let count = self.byte()?;
        if count > most {
            return Err(wrong);
        }
        Ok(count)
    }

    /// A number of elements in four bytes.
    fn long_count(&mut self, most: u32) -> Result<u32, Stop>
        ensures ok { IfOk result (λ n. (self.old ≡ four_bytes n ++ self.new) × (n ≤ most)) }
        ensures err { IfErr result (FailsLongCount most self.old) }
    {
        let wrong = self.stop(Cause::Limit);
        let count = self.target()?;
        if count > most {
            return Err(wrong);
        }
        Ok(count)
    }

    // ---- stages

    fn name_length(&mut self) -> Result<u8, Stop>
        ensures ok { IfOk result (λ n. (self.old ≡ n ∷ self.new) × IsTrue (is_name_length n)) }
        ensures err { IfErr result (FailsTests (stop_at causes.Op) (is_name_length ∷ []) self.old) }
    {
        let wrong = self.stop(Cause::Op);
        let length = self.byte()?;
        if length == 0 || usize::from(length) > MAX_NAME_BYTES {
            return Err(wrong);
        }
        Ok(length)
    }

    fn letter(&mut self) -> Result<u8, Stop>
        ensures ok { IfOk result (λ b. (self.old ≡ b ∷ self.new) × IsTrue (is_letter b)) }
        ensures err { IfErr result (FailsAhead (is_letter ∷ []) self.old) }
    {
        let wrong = self.stop(Cause::Op);
        let byte = self.byte()?;
        if !byte.is_ascii_alphabetic() {
            return Err(wrong);
        }
        Ok(byte)
    }

    fn name_byte(&mut self) -> Result<u8, Stop>
        ensures ok { IfOk result (λ b. (self.old ≡ b ∷ self.new) × IsTrue (is_name_byte b)) }
        ensures err { IfErr result (FailsAhead (is_name_byte ∷ []) self.old) }
    {
        let wrong = self.stop(Cause::Op);
        let byte = self.byte()?;
        if !byte.is_ascii_alphanumeric() && byte != b'_' {
            return Err(wrong);
        }
        Ok(byte)
    }

    /// The bytes of a name of this length.
    fn name(&mut self, length: u8) -> Result<&'a [u8], Stop>
        requires { IsTrue (is_name_length length) }
        ensures ok { IfOk result (λ name. IsName length self.old self.new name.now) }
        ensures err { IfErr result (FailsAhead (name_tests length) self.old) }
    {
        let here = self.rest();
        self.letter()?;
        for _at in 1..length {
            self.name_byte()?;
        }
        Ok(&here[..usize::from(length)])
    }

    fn stage(&mut self, alloc: Global) -> Result<CodeStage, Refusal>
        ensures ok { IfOk result (λ s. (self.old ≡ stage_bytes s ++ self.new) × IsStage s) }
        ensures err { IfErr result (Refuses (FailsStage self.old)) }
    {
        let length = self.name_length()?;
        let name = self.name(length)?;
        let slot = self.byte()?;
        let name = Word::new(alloc, name)?;
        Ok(CodeStage { name, slot })
    }

    fn stage_list(&mut self, alloc: Global, count: u8) -> Result<Vec<CodeStage>, Refusal>
        ensures ok { IfOk result (λ v. (self.old ≡ flat_map stage_bytes v.items ++ self.new) × (length v.items ≡ count) × All IsStage v.items) }
        ensures err { IfErr result (Refuses (FailsElement stage_bytes IsStage FailsStage count self.old)) }
    {
        let mut stages = Vec::new(alloc);
        for _at in 0..count {
            let stage = self.stage(alloc)?;
            stages.push(stage)?;
        }
        Ok(stages)
    }

    fn stages(&mut self, alloc: Global) -> Result<Vec<CodeStage>, Refusal>
        ensures ok { IfOk result (λ v. (self.old ≡ stages_part v.items ++ self.new) × (length v.items ≤ most_stages) × All IsStage v.items) }
        ensures err { IfErr result (Refuses (FailsStages self.old)) }
    {
        let count = self.count(MAX_STAGES as u8)?;
        self.stage_list(alloc, count)
    }

    // ---- slots

    fn slot_list(&mut self, alloc: Global, count: u8) -> Result<Vec<Shape>, Refusal>
        ensures ok { IfOk result (λ v. (self.old ≡ flat_map shape_bytes v.items ++ self.new) × (length v.items ≡ count)) }
        ensures err { IfErr result (Refuses (FailsElement shape_bytes IsAny FailsShape count self.old)) }
    {
        let mut slots = Vec::new(alloc);
        for _at in 0..count {
            let shape = self.numbered()?;
            slots.push(shape)?;
        }
        Ok(slots)
    }

    fn slots(&mut self, alloc: Global) -> Result<Vec<Shape>, Refusal>
        ensures ok { IfOk result (λ v. (self.old ≡ slots_part v.items ++ self.new) × (length v.items ≤ most_slots)) }
        ensures err { IfErr result (Refuses (FailsSlots self.old)) }
    {
        let count = self.count(MAX_SLOTS as u8)?;
        self.slot_list(alloc, count)
    }

    // ---- instructions

    fn instr_list(&mut self, alloc: Global, count: u32) -> Result<Vec<Instr>, Refusal>
        ensures ok { IfOk result (λ v. (self.old ≡ flat_map instr_bytes v.items ++ self.new) × (length v.items ≡ count) × All IsInRange v.items) }
        ensures err { IfErr result (Refuses (FailsElement instr_bytes IsAny FailsInstr count self.old)) }
    {
        let mut instrs = Vec::new(alloc);
        for _at in 0..count {
            let instr = self.instr()?;
            instrs.push(instr)?;
        }
        Ok(instrs)
    }

    fn instrs(&mut self, alloc: Global) -> Result<Vec<Instr>, Refusal>
        ensures ok { IfOk result (λ v. (self.old ≡ instrs_part v.items ++ self.new) × (length v.items ≤ most_instrs) × All IsInRange v.items) }
        ensures err { IfErr result (Refuses (FailsInstrs self.old)) }
    {
        let count = self.long_count(MAX_INSTRS as u32)?;
        self.instr_list(alloc, count)
    }

    // ---- the file

    fn code(&mut self, alloc: Global) -> Result<Code, Refusal>
        ensures ok { IfOk result (λ c. self.old ≡ spelling_of c) }
        ensures proper { IfOk result IsProper }
        ensures err { IfErr result (Refuses (FailsFile self.old)) }
    {
        self.opening()?;
        let stages = self.stages(alloc)?;
        let slots = self.slots(alloc)?;
        let instrs = self.instrs(alloc)?;
        if self.left() > 0 {
            return Err(Refusal::Stop(self.stop(Cause::Trailing)));
        }
        Ok(Code::new(instrs, stages, slots))
    }
}

/// The fault of a file of so many bytes.
fn fault_of(total: usize, stop: Stop) -> CodeFault
    ensures { result ≡ fault_of total stop.cause stop.left }
{
    let at = total.saturating_sub(stop.left);
    match stop.cause {
        Cause::Magic => CodeFault::Magic(at),
        Cause::Version => CodeFault::Version(at),
        Cause::Op => CodeFault::Op(at),
        Cause::Short => CodeFault::Short(at),
        Cause::Trailing => CodeFault::Trailing(at),
        Cause::Limit => CodeFault::Limit(at),
    }
}

/// The code that these bytes spell (docs/code.md, section 1). Bytes spell at most one (`laws::one_code`), and what was written reads
/// back (`laws::reads_back`).
///
/// # Errors
///
/// For bytes that spell none, the first fault from front to back, by its offset: [`CodeFault::Magic`] at 0, where a letter of
/// the opening is wrong, [`CodeFault::Version`], [`CodeFault::Limit`] at the first byte of a number of elements that is too
/// great, [`CodeFault::Op`] at a byte that has no meaning there, [`CodeFault::Short`] with the file's length where a byte is
/// missing, [`CodeFault::Trailing`] at the first byte too many. Bytes have at most one fault (`laws::one_fault`).
/// [`CodeFault::NoMemory`] where a stage, a slot or an instruction before such a place finds no room.
pub fn from_bytes(alloc: Global, bytes: &[u8]) -> Result<Code, CodeFault>
    ensures { IsReading bytes.now result }
{
    match Reader::new(bytes).code(alloc) {
        Ok(code) => Ok(code),
        Err(Refusal::NoMemory) => Err(CodeFault::NoMemory),
        Err(Refusal::Stop(stop)) => Err(fault_of(bytes.len(), stop)),
    }
}
