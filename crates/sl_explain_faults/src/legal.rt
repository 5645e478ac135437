//! Explains legal faults.

ghost use Rattle.std.specs.Fmt.{decimal};
ghost use Rattle.std.specs.Prelude.{◌≡◌, ◌∷◌, [], IfOk, Some};
ghost use Rattle.sl_explain_texts.specs.Explainers.{Begins, Keeps, KeepsWith};
ghost use Rattle.sl_explain_texts.specs.Languages.{lent_of_fault};
ghost use Rattle.sl_explain_texts.specs.Messages.{IsFilledBy, IsSaidBy, says, texts_of};
ghost use Rattle.sl_explain_texts.specs.Pages.{texts_in};
ghost use Rattle.sl_explain_faults.specs.Codes.{legal_code};
ghost use Rattle.sl_explain_faults.specs.Legal.{ExplainsFault, SaysFault, legal_sentence, records_of, scope_words, stage_at};

use crate::counts::{Sums, heaviest, majority_party, population, sums_of, winners_in};
use crate::lots::help_lots;
use crate::texts::legal as texts;
use crate::words::{names_of, party_name, scope_words, stage_name};
use sl_base_quotients::NoMemory;
use sl_explain_texts::{Explainer, Explanation, Language, Message, Sentence, Speaker};
use sl_stages::{FaultKind, Item, LegalFault, MAX_SEATS, Returns, Scope};
use std::alloc::Global;

// What is said of lists that win nothing.
fn votes_message(sums: Sums) -> &'static Message
    ensures { IsFilledBy result.now 2 }
{
    if sums.lists == 0 {
        &texts::NO_RECORD
    } else if sums.counted == 0 {
        &texts::NO_VOTES
    } else {
        &texts::NOBODY
    }
}

// Adds what to do where there is nobody with votes.
fn help_votes(explainer: &mut Explainer, returns: &Returns, scope: Scope) -> Result<(), NoMemory>
    ensures { Keeps explainer.old explainer.new }
{
    if scope == Scope::All && population(returns) == 0 {
        explainer.helps(&texts::NO_PEOPLE, &[]);
    }
    let speaker = explainer.speaker();
    let sums = sums_of(returns, scope);
    let lists = speaker.counted(sums.lists as usize, &texts::LIST, &texts::LISTS)?;
    let counted = speaker.number(sums.counted as usize)?;
    explainer.helps(votes_message(sums), &[lists.as_slice(), counted.as_slice()]);
    Ok(())
}

// Adds who has more than half of the votes.
fn help_majority(explainer: &mut Explainer, returns: &Returns, scope: Scope) -> Result<(), NoMemory>
    ensures { Keeps explainer.old explainer.new }
{
    if let Some((party, own)) = majority_party(returns, scope) {
        let speaker = explainer.speaker();
        let own = speaker.number(own as usize)?;
        let all = speaker.number(sums_of(returns, scope).counted as usize)?;
        let values = [party_name(returns, party), own.as_slice(), all.as_slice()];
        explainer.helps(&texts::HALF, &values);
    }
    explainer.helps(&texts::NO_RULE, &[]);
    Ok(())
}

// Adds the list with the most winners for its votes.
fn help_heaviest(explainer: &mut Explainer, returns: &Returns) -> Result<(), NoMemory>
    ensures { Keeps explainer.old explainer.new }
{
    let speaker = explainer.speaker();
    if let Some(burden) = heaviest(speaker.alloc, returns)? {
        let list = scope_words(speaker, returns, Scope::List(burden.land, burden.party))?;
        let winners = speaker.number(burden.winners as usize)?;
        let counted = speaker.number(burden.counted as usize)?;
        let values = [list.as_slice(), winners.as_slice(), counted.as_slice()];
        explainer.helps(&texts::HEAVIEST, &values);
    }
    explainer.helps_with(&texts::RAISE_CAP, speaker.number(MAX_SEATS as usize));
    Ok(())
}

// Adds the number of winners of a scope, and that there may be more seats.
fn help_winners(explainer: &mut Explainer, returns: &Returns, scope: Scope)
    ensures { Keeps explainer.old explainer.new }
{
    let number = winners_in(returns, scope) as usize;
    let speaker = explainer.speaker();
    let winners = speaker.counted(number, &texts::WINNER, &texts::WINNERS);
    explainer.helps_with(&texts::COMPARE, winners);
    explainer.helps(&texts::MORE_SEATS, &[]);
}

// Adds what to do about a fault, and of a tie the records of its lots.
fn help_fault(
    explainer: &mut Explainer,
    stages: &[&[u8]],
    returns: &Returns,
    fault: &LegalFault,
) -> Result<(), NoMemory>
    requires { IfOk explainer.old.records (λ rs. rs.items ≡ []) }
    ensures fault { KeepsWith explainer.old explainer.new explainer.new.records }
    ensures records { IfOk explainer.new.records (λ rs. texts_in rs.items ≡ records_of returns.now (texts_of stages.now) fault.now) }
{
    let scope = fault.scope;
    match &fault.kind {
        FaultKind::Limit => {
            explainer.helps(&texts::FEWER_SEATS, &[]);
            Ok(())
        }
        FaultKind::Short => {
            help_winners(explainer, returns, scope);
            Ok(())
        }
        FaultKind::NoList => help_votes(explainer, returns, scope),
        FaultKind::Tie { names, .. } => {
            let stage = stage_name(stages, fault.stage);
            help_lots(explainer, stages, returns, stage, names.as_slice())
        }
        FaultKind::Majority => help_majority(explainer, returns, scope),
        FaultKind::Cap => help_heaviest(explainer, returns),
    }
}

// What is said of a fault that is no tie.
fn say_scope(
    speaker: Speaker,
    stages: &[&[u8]],
    returns: &Returns,
    fault: &LegalFault,
    sentence: &Sentence,
) -> Result<Explainer, NoMemory>
    requires { IsSaidBy sentence.now 3 }
    ensures code { IfOk result (λ x. x.code ≡ Some sentence.now.0) }
    ensures said { IfOk result (λ x. Begins x (says speaker.language (lent_of_fault sentence.now) (stage_at (texts_of stages.now) fault.now.stage ∷ scope_words returns.now speaker.language fault.now.scope ∷ decimal 4000 ∷ []))) }
{
    let stage = stage_name(stages, fault.stage);
    let scope = scope_words(speaker, returns, fault.scope)?;
    let most = speaker.number(MAX_SEATS as usize)?;
    Ok(speaker.says(sentence, &[stage, scope.as_slice(), most.as_slice()]))
}

// That there is a tie of some items for so many seats.
fn say_tie(
    speaker: Speaker,
    stages: &[&[u8]],
    returns: &Returns,
    fault: &LegalFault,
    seats: u64,
    items: &[Item],
) -> Result<Explainer, NoMemory>
    requires { fault.now.kind ≡ FaultKind.Tie seats items.now }
    ensures code { IfOk result (λ x. x.code ≡ Some (legal_code fault.now)) }
    ensures said { IfOk result (λ x. Begins x (legal_sentence returns.now speaker.language (texts_of stages.now) fault.now)) }
{
    let stage = stage_name(stages, fault.stage);
    let scope = scope_words(speaker, returns, fault.scope)?;
    let seats = speaker.counted(seats as usize, &texts::SEAT, &texts::SEATS)?;
    let claims = speaker.number(items.len())?;
    let names = names_of(speaker, returns, items)?;
    let values = [
        stage,
        scope.as_slice(),
        seats.as_slice(),
        claims.as_slice(),
        names.as_slice(),
    ];
    Ok(speaker.says(&texts::TIE, &values))
}

// What a legal fault is.
fn say_fault(
    speaker: Speaker,
    stages: &[&[u8]],
    returns: &Returns,
    fault: &LegalFault,
) -> Result<Explainer, NoMemory>
    ensures code { IfOk result (λ x. x.code ≡ Some (legal_code fault.now)) }
    ensures said { IfOk result (λ x. Begins x (legal_sentence returns.now speaker.language (texts_of stages.now) fault.now)) }
{
    match &fault.kind {
        FaultKind::Limit => say_scope(speaker, stages, returns, fault, &texts::LIMIT),
        FaultKind::Short => say_scope(speaker, stages, returns, fault, &texts::SHORT),
        FaultKind::NoList => say_scope(speaker, stages, returns, fault, &texts::NO_LIST),
        FaultKind::Tie { seats, names } => {
            say_tie(speaker, stages, returns, fault, *seats, names.as_slice())
        }
        FaultKind::Majority => say_scope(speaker, stages, returns, fault, &texts::MAJORITY),
        FaultKind::Cap => say_scope(speaker, stages, returns, fault, &texts::CAP),
    }
}

/// What a legal fault is, of a rulebook with stages of these names, in their order, on the returns: the first sentence of its explanation alone.
pub fn say_legal(
    alloc: Global,
    language: Language,
    stages: &[&[u8]],
    returns: &Returns,
    fault: &LegalFault,
) -> Result<Explanation, NoMemory>
    ensures { IfOk result (SaysFault returns.now language (texts_of stages.now) fault.now) }
{
    say_fault(Speaker { alloc, language }, stages, returns, fault)?.finished()
}

/// Explains a legal fault of a rulebook with stages of these names, in their order, on the returns.
pub fn explain_legal(
    alloc: Global,
    language: Language,
    stages: &[&[u8]],
    returns: &Returns,
    fault: &LegalFault,
) -> Result<Explanation, NoMemory>
    ensures { IfOk result (ExplainsFault returns.now language (texts_of stages.now) fault.now) }
{
    let mut explainer = say_fault(Speaker { alloc, language }, stages, returns, fault)?;
    help_fault(&mut explainer, stages, returns, fault)?;
    explainer.finished()
}
