//! Warnings as sentences, in both languages.

ghost use Rattle.std.specs.Fmt.{decimal};
ghost use Rattle.std.specs.List.{position};
ghost use Rattle.std.specs.Prelude.{◌≡◌, ◌<◌, ◌∷◌, [], IfOk, codes, count_by, length};
ghost use Rattle.sl_explain_texts.specs.Messages.{IsFilledBy, said, says};
ghost use Rattle.sl_explain_texts.specs.Languages.{lent, row};
ghost use Rattle.sl_report_warnings.specs.declared.texts.rows.TheConstants.{NOTHING_COUNTED};
ghost use Rattle.sl_report_warnings.specs.Heads.{are_of_kind, head_of, is_at, line_at, line_of, others_said, warning_lines};
ghost use Rattle.sl_report_warnings.specs.Sentences.{lists_in, name_at, no_entry, sentence_of, stage_of_lot, winners_in};

use crate::texts;
use crate::warning::Warning;
use sl_base_quotients::NoMemory;
use sl_explain_texts::{Language, Message, Speaker};
use sl_report_parties::one_if;
use sl_stages::{Returns, Shape};
use std::alloc::Global;

// The name of a Land, and no text where there is no such Land.
fn land_name(returns: &Returns, land: usize) -> &[u8]
    ensures { result.now ≡ name_at returns.now.land_names land }
{
    if land < returns.lands() {
        returns.land_name(land)
    } else {
        b""
    }
}

fn party_name(returns: &Returns, party: usize) -> &[u8]
    ensures { result.now ≡ name_at returns.now.party_names party }
{
    if party < returns.parties() {
        returns.party_name(party)
    } else {
        b""
    }
}

// The stage that a lot names.
fn lot_stage(returns: &Returns, lot: usize) -> &[u8]
    ensures { result.now ≡ stage_of_lot returns.now lot }
{
    let lot = returns.lots().get(lot);
    lot.map_or(b"", |lot| lot.stage.as_bytes())
}

// The sentence of a warning of a party's winners, with the name of a Land where it has one.
fn winners_sentence(
    speaker: Speaker,
    message: &Message,
    party: &[u8],
    winners: u64,
    land: &[u8],
) -> Result<Vec<u8>, NoMemory>
    requires { IsFilledBy message.now 3 }
    ensures { IfOk result (λ text. text.items ≡ says speaker.language (lent message.now) (party.now ∷ winners_in speaker.language winners ∷ land.now ∷ [])) }
{
    let winners = speaker.counted(winners as usize, &texts::WINNER, &texts::WINNERS)?;
    speaker.text(message, &[party, winners.as_slice(), land])
}

// The sentence of a warning of lists that count no vote.
fn lists_sentence(speaker: Speaker, party: &[u8], lists: u64) -> Result<Vec<u8>, NoMemory>
    ensures { IfOk result (λ text. text.items ≡ says speaker.language (row NOTHING_COUNTED) (lists_in speaker.language lists ∷ party.now ∷ [])) }
{
    let lists = speaker.counted(lists as usize, &texts::LIST, &texts::LISTS)?;
    speaker.text(&texts::NOTHING_COUNTED, &[lists.as_slice(), party])
}

// The sentence of a warning with two numbers.
fn numbers_sentence(
    speaker: Speaker,
    message: &Message,
    first: u64,
    second: u64,
) -> Result<Vec<u8>, NoMemory>
    requires { IsFilledBy message.now 2 }
    ensures { IfOk result (λ text. text.items ≡ says speaker.language (lent message.now) (decimal first ∷ decimal second ∷ [])) }
{
    let first = speaker.number(first as usize)?;
    let second = speaker.number(second as usize)?;
    speaker.text(message, &[first.as_slice(), second.as_slice()])
}

// The sentence of a warning with the name of a Land and two numbers.
fn votes_sentence(
    speaker: Speaker,
    message: &Message,
    land: &[u8],
    first: u64,
    second: u64,
) -> Result<Vec<u8>, NoMemory>
    requires { IsFilledBy message.now 3 }
    ensures { IfOk result (λ text. text.items ≡ says speaker.language (lent message.now) (land.now ∷ decimal first ∷ decimal second ∷ [])) }
{
    let first = speaker.number(first as usize)?;
    let second = speaker.number(second as usize)?;
    speaker.text(message, &[land, first.as_slice(), second.as_slice()])
}

// The sentence of a warning of a lot that names none of those among whom it is drawn.
fn entry_sentence(speaker: Speaker, shape: Option<Shape>, stage: &[u8]) -> Result<Vec<u8>, NoMemory>
    ensures { IfOk result (λ text. text.items ≡ said speaker.language (no_entry shape) ((codes "stage", stage.now) ∷ [])) }
{
    match shape {
        None => speaker.text(&texts::LOT_OF_NO_WINNER, &[stage]),
        Some(Shape::Party) => speaker.text(&texts::LOT_OF_NO_PARTY, &[stage]),
        Some(Shape::Land) => speaker.text(&texts::LOT_OF_NO_LAND, &[stage]),
        Some(Shape::List) => speaker.text(&texts::LOT_OF_NO_LIST, &[stage]),
        Some(Shape::One) => speaker.text(&texts::LOT_OF_NO_LIST, &[stage]),
    }
}

/// A warning of returns in words, with their short names.
pub fn sentence(
    alloc: Global,
    language: Language,
    returns: &Returns,
    warning: Warning,
) -> Result<Vec<u8>, NoMemory>
    ensures { IfOk result (λ text. text.items ≡ sentence_of language returns.now warning) }
{
    let speaker = Speaker { alloc, language };
    match warning {
        Warning::EqualPeople => speaker.text(&texts::EQUAL_PEOPLE, &[]),
        Warning::LandWithoutWinners { land } => {
            speaker.text(&texts::LAND_WITHOUT_WINNERS, &[land_name(returns, land)])
        }
        Warning::WinnersWithoutList { party, winners } => {
            let party = party_name(returns, party);
            winners_sentence(speaker, &texts::WINNERS_WITHOUT_LIST, party, winners, b"")
        }
        Warning::WinnersBesideLists {
            land,
            party,
            winners,
        } => {
            let (party, land) = (party_name(returns, party), land_name(returns, land));
            winners_sentence(speaker, &texts::WINNERS_BESIDE_LISTS, party, winners, land)
        }
        Warning::NothingCounted { party, lists } => {
            lists_sentence(speaker, party_name(returns, party), lists)
        }
        Warning::SeveralParties { party } => {
            speaker.text(&texts::SEVERAL_PARTIES, &[party_name(returns, party)])
        }
        Warning::LotUnused { lot } => {
            speaker.text(&texts::LOT_UNUSED, &[lot_stage(returns, lot)])
        }
        Warning::LotOfNoEntry { lot, shape } => {
            let stage = lot_stage(returns, lot);
            entry_sentence(speaker, shape, stage)
        }
        Warning::OtherHouse { returns, book } => {
            numbers_sentence(
                speaker,
                &texts::OTHER_HOUSE,
                u64::from(returns),
                u64::from(book),
            )
        }
        Warning::FewParties { parties } => {
            let parties = speaker.counted(parties, &texts::PARTY, &texts::PARTIES);
            speaker.text_with(&texts::FEW_PARTIES, parties)
        }
        Warning::LandWithoutVotes { land } => {
            speaker.text(&texts::LAND_WITHOUT_VOTES, &[land_name(returns, land)])
        }
        Warning::MoreVotesThanPeople {
            land,
            votes,
            people,
        } => {
            let land = land_name(returns, land);
            votes_sentence(
                speaker,
                &texts::MORE_VOTES_THAN_PEOPLE,
                land,
                votes,
                u64::from(people),
            )
        }
        Warning::FewSecondVotes { land, votes, first } => {
            let land = land_name(returns, land);
            votes_sentence(speaker, &texts::FEW_SECOND_VOTES, land, votes, first)
        }
        Warning::LandIsSum { land } => {
            speaker.text(&texts::LAND_IS_SUM, &[land_name(returns, land)])
        }
        Warning::SumOfParties { party } => {
            speaker.text(&texts::SUM_OF_PARTIES, &[party_name(returns, party)])
        }
        Warning::MinorityEverywhere { party } => {
            speaker.text(&texts::MINORITY_EVERYWHERE, &[party_name(returns, party)])
        }
        Warning::FewVotes { votes, seats } => numbers_sentence(
            speaker,
            &texts::FEW_VOTES,
            votes,
            seats,
        ),
        Warning::OnePartyAlone { party } => {
            speaker.text(&texts::ONE_PARTY_ALONE, &[party_name(returns, party)])
        }
        Warning::LotOfNoSeats { lot } => {
            speaker.text(&texts::LOT_OF_NO_SEATS, &[lot_stage(returns, lot)])
        }
        Warning::StageUnused { stage } => {
            speaker.text_with(&texts::STAGE_UNUSED, speaker.number(stage))
        }
    }
}

// Whether warnings are of one kind.
fn are_of_kind(warning: Warning, other: Warning) -> bool
    ensures { result ≡ are_of_kind warning other }
{
    warning.code().word() == other.code().word()
}

// How a warning begins: the word for a warning, and its code.
fn head_of(alloc: Global, language: Language, warning: Warning) -> Result<Vec<u8>, NoMemory>
    ensures { IfOk result (λ text. text.items ≡ head_of language warning) }
{
    let mut text = Vec::new(alloc);
    text.extend_from_slice(language.warning_word().as_bytes())?;
    text.extend_from_slice(b"[")?;
    text.extend_from_slice(warning.code().word().as_bytes())?;
    text.extend_from_slice(b"]: ")?;
    Ok(text)
}

// How many further warnings of a kind there are, where there are some.
fn others_said(alloc: Global, language: Language, others: u64) -> Result<Vec<u8>, NoMemory>
    ensures { IfOk result (λ text. text.items ≡ others_said language others) }
{
    if others == 0 {
        return Ok(Vec::new(alloc));
    }
    let speaker = Speaker { alloc, language };
    speaker.text_with(&texts::OTHERS, speaker.number(others as usize))
}

// A warning as a line, with how many further ones of its kind there are.
fn line_of(
    alloc: Global,
    language: Language,
    returns: &Returns,
    warning: Warning,
    others: u64,
) -> Result<Vec<u8>, NoMemory>
    ensures { IfOk result (λ text. text.items ≡ line_of language returns.now warning others) }
{
    let sentence = sentence(alloc, language, returns, warning)?;
    let others = others_said(alloc, language, others)?;
    let mut line = head_of(alloc, language, warning)?;
    line.extend_from_slice(sentence.as_slice())?;
    line.extend_from_slice(others.as_slice())?;
    line.push(b'\n')?;
    Ok(line)
}

// How many warnings are of a kind.
fn of_kind(warnings: &[Warning], warning: Warning) -> u64
    ensures { result ≡ count_by (are_of_kind warning) warnings.now }
{
    let mut found = 0u64;
    for other in warnings {
        found += one_if(are_of_kind(warning, *other));
    }
    found
}

// The place of the first warning of a kind.
fn first_of_kind(warnings: &[Warning], warning: Warning) -> Option<usize>
    ensures { result ≡ position (are_of_kind warning) warnings.now }
{
    warnings.iter().position(
        |other|
            ensures { result ≡ are_of_kind warning other.now }
        { are_of_kind(warning, *other) },
    )
}

// Whether the warning at a place is the first of its kind.
fn is_first(warnings: &[Warning], warning: Warning, number: usize) -> bool
    ensures { result ≡ is_at number (position (are_of_kind warning) warnings.now) }
{
    match first_of_kind(warnings, warning) {
        Some(first) => first == number,
        None => false,
    }
}

// The line of the warning at a place, if it is the first of its kind.
fn line_at(
    alloc: Global,
    language: Language,
    returns: &Returns,
    warnings: &[Warning],
    number: usize,
) -> Result<Vec<u8>, NoMemory>
    requires { number < length warnings.now }
    ensures { IfOk result (λ text. text.items ≡ line_at language returns.now warnings.now number) }
{
    let warning = warnings[number];
    if !is_first(warnings, warning, number) {
        return Ok(Vec::new(alloc));
    }
    let others = of_kind(warnings, warning).saturating_sub(1);
    line_of(alloc, language, returns, warning, others)
}

/// Warnings of returns as lines, one for each kind, with its code.
pub fn written(
    alloc: Global,
    language: Language,
    returns: &Returns,
    warnings: &[Warning],
) -> Result<Vec<u8>, NoMemory>
    ensures { IfOk result (λ text. text.items ≡ warning_lines language returns.now warnings.now) }
{
    let mut text = Vec::new(alloc);
    for number in 0..warnings.len() {
        let line = line_at(alloc, language, returns, warnings, number)?;
        text.extend_from_slice(line.as_slice())?;
    }
    Ok(text)
}
