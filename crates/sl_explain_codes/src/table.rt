//! What is to be said of a code: by a table with an entry for each.

ghost use Rattle.std.specs.Prelude.{◌≡◌};

use crate::texts::page::PAGE;
use crate::texts::{code_files, grammar, legal, returns, tests, warnings};
use crate::wrapped::wrapped;
use sl_base_quotients::NoMemory;
use sl_explain_texts::{FaultCode, Language, Message, Speaker};
use std::alloc::Global;

/// What is to be said of a code: a title, what it means, an example of a line that has the fault or of the line that tells of it, and what to do.
pub struct Entry {
    pub code: FaultCode,
    pub title: Message,
    pub meaning: Message,
    pub example: &'static str,
    pub remedy: Message,
}

/// What is to be said of a code.
pub fn entry_of(code: FaultCode) -> &'static Entry
    ensures { result.now.code ≡ code }
{
    match code {
        FaultCode::B01 => &grammar::B01,
        FaultCode::B02 => &grammar::B02,
        FaultCode::B03 => &grammar::B03,
        FaultCode::B04 => &grammar::B04,
        FaultCode::B05 => &grammar::B05,
        FaultCode::B06 => &grammar::B06,
        FaultCode::B07 => &grammar::B07,
        FaultCode::B08 => &grammar::B08,
        FaultCode::B09 => &grammar::B09,
        FaultCode::B10 => &grammar::B10,
        FaultCode::B11 => &tests::B11,
        FaultCode::B12 => &tests::B12,
        FaultCode::B13 => &tests::B13,
        FaultCode::B14 => &tests::B14,
        FaultCode::B15 => &tests::B15,
        FaultCode::B16 => &tests::B16,
        FaultCode::B17 => &tests::B17,
        FaultCode::B18 => &tests::B18,
        FaultCode::B19 => &tests::B19,
        FaultCode::B20 => &tests::B20,
        FaultCode::B21 => &tests::B21,
        FaultCode::B22 => &grammar::B22,
        FaultCode::R01 => &returns::R01,
        FaultCode::R02 => &returns::R02,
        FaultCode::R03 => &returns::R03,
        FaultCode::R04 => &returns::R04,
        FaultCode::R05 => &returns::R05,
        FaultCode::R06 => &returns::R06,
        FaultCode::R07 => &returns::R07,
        FaultCode::R08 => &returns::R08,
        FaultCode::R09 => &returns::R09,
        FaultCode::R10 => &returns::R10,
        FaultCode::R11 => &returns::R11,
        FaultCode::R12 => &returns::R12,
        FaultCode::L01 => &legal::L01,
        FaultCode::L02 => &legal::L02,
        FaultCode::L03 => &legal::L03,
        FaultCode::L04 => &legal::L04,
        FaultCode::L05 => &legal::L05,
        FaultCode::L06 => &legal::L06,
        FaultCode::C01 => &code_files::C01,
        FaultCode::C02 => &code_files::C02,
        FaultCode::C03 => &code_files::C03,
        FaultCode::C04 => &code_files::C04,
        FaultCode::C05 => &code_files::C05,
        FaultCode::C06 => &code_files::C06,
        FaultCode::C07 => &code_files::C07,
        FaultCode::C08 => &code_files::C08,
        FaultCode::C09 => &code_files::C09,
        FaultCode::C10 => &code_files::C10,
        FaultCode::C11 => &code_files::C11,
        FaultCode::C12 => &code_files::C12,
        FaultCode::C13 => &code_files::C13,
        FaultCode::C14 => &code_files::C14,
        FaultCode::C15 => &code_files::C15,
        FaultCode::W01 => &warnings::W01,
        FaultCode::W02 => &warnings::W02,
        FaultCode::W03 => &warnings::W03,
        FaultCode::W04 => &warnings::W04,
        FaultCode::W05 => &warnings::W05,
        FaultCode::W06 => &warnings::W06,
        FaultCode::W07 => &warnings::W07,
        FaultCode::W08 => &warnings::W08,
        FaultCode::W09 => &warnings::W09,
        FaultCode::W10 => &warnings::W10,
        FaultCode::W11 => &warnings::W11,
        FaultCode::W12 => &warnings::W12,
        FaultCode::W13 => &warnings::W13,
        FaultCode::W14 => &warnings::W14,
        FaultCode::W15 => &warnings::W15,
        FaultCode::W16 => &warnings::W16,
        FaultCode::W17 => &warnings::W17,
        FaultCode::W18 => &warnings::W18,
        FaultCode::W19 => &warnings::W19,
        FaultCode::W20 => &warnings::W20,
    }
}

/// What is to be said of a code, as a text in lines for a terminal: its title, what it means, an example, and what to do.
pub fn text_about(alloc: Global, language: Language, code: FaultCode) -> Result<Vec<u8>, NoMemory> {
    let entry = entry_of(code);
    let meaning = wrapped(alloc, language.text(&entry.meaning), "")?;
    let remedy = wrapped(alloc, language.text(&entry.remedy), "  ")?;
    let values = [
        code.word().as_bytes(),
        language.text(&entry.title).as_bytes(),
        meaning.as_slice(),
        entry.example.as_bytes(),
        remedy.as_slice(),
    ];
    Speaker { alloc, language }.text(&PAGE, &values)
}
