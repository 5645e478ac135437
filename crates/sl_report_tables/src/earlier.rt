//! An earlier seat table, read from the text that `count` wrote.

ghost use Rattle.std.specs.List.{after_first, before_first, list_all, position};
ghost use Rattle.std.specs.Prelude.{◌&&◌, ◌++◌, ◌∷◌, [], ◌≡◌, IfErr, IfOk, MatchOption, OnOk, false, filter_map, is_some, length, map, nat_eq, nat_lt, not, option_map, true};
ghost use Rattle.sl_report_tables.specs.Earlier.{is_line, is_other, is_table, party_told, table_parties, spelled_or_zero, told_party, told_total, total_told, with_others, words};

use sl_base_quotients::NoMemory;
use sl_report_parties::{EarlierParty, all_before};
use sl_returns::spelled_number;
use std::alloc::Global;

// The first word of a line and what stands after it; nothing of a line of one word.
#[tactic(auto, using(crate::proofs::EarlierSteps::one_word, crate::proofs::EarlierSteps::first_word))]
fn cut(line: &str) -> Option<(&str, &str)>
    ensures { MatchOption result (words line.now ≡ line.now ∷ []) (λ x. words line.now ≡ x.0.now ∷ words x.1.now) }
{
    line.split_once(' ')
}

// The party of a line that tells one.
fn party_in(line: &str) -> Option<EarlierParty<'_>>
    ensures { option_map party_told result ≡ told_party (words line.now) }
{
    let (word, rest) = cut(line)?;
    let (name, rest) = cut(rest)?;
    let (seats, direct) = cut(rest)?;
    if cut(direct).is_some() || word != "party" {
        return None;
    }
    spelled_number(direct.as_bytes())?;
    let seats = spelled_number(seats.as_bytes())?;
    Some(EarlierParty { name, seats })
}

// The first word of a line, and what stands behind it.
fn split_word(line: &str) -> (&str, &str)
    ensures first { result.0.now ≡ before_first (λ b. nat_eq b 32) line.now }
    ensures behind { result.1.now ≡ after_first (λ b. nat_eq b 32) line.now }
{
    match line.split_once(' ') {
        Some(parts) => parts,
        None => (line, ""),
    }
}

// The number that a word spells, or 0.
fn number_in(word: &str) -> u64
    ensures { result ≡ spelled_or_zero word.now }
{
    spelled_number(word.as_bytes()).unwrap_or(0)
}

// The seats of a line that tells those of all, or 0.
fn total_in(line: &str) -> u64
    ensures { result ≡ told_total line.now }
{
    let (word, seats) = split_word(line);
    if word == "total" { number_in(seats) } else { 0 }
}

// The seats of all, in the first of these lines.
fn first_total(lines: &[&str]) -> u64
    ensures { result ≡ total_told (map (λ l. l.now) lines.now) }
{
    match lines.first() {
        Some(line) => total_in(*line),
        None => 0,
    }
}

// Whether the first word of a line is that of a line that tells no party.
fn is_other(line: &str) -> bool
    ensures { result ≡ is_other (words line.now) }
{
    let first = match cut(line) {
        Some((first, _)) => first,
        None => line,
    };
    matches!(first, "total" | "list" | "vacant" | "single" | "open")
}

fn is_line(line: &str) -> bool
    ensures { result ≡ is_line line.now }
{
    party_in(line).is_some() || is_other(line)
}

// The number of the first line that is none of a seat table.
fn wrong_line(lines: &[&str]) -> Option<usize>
    ensures { result ≡ position (λ l. not (is_line l.now)) lines.now }
{
    lines.iter().position(
        |line|
            ensures { result ≡ not (is_line line.now.now) }
        { !is_line(*line) },
    )
}

// The same, from 0; of no lines 0.
fn first_wrong(lines: &[&str]) -> Option<usize>
    ensures { is_some result ≡ not (nat_lt 0 (length lines.now) && list_all (λ l. is_line l.now) lines.now) }
{
    if lines.is_empty() {
        return Some(0);
    }
    wrong_line(lines)
}

// Adds the party that a line tells, if it tells one.
fn push_party<'a>(found: &mut Vec<EarlierParty<'a>>, line: &'a str) -> Result<(), NoMemory>
    ensures { OnOk result (map party_told found.new.items ≡ map party_told found.old.items ++ filter_map (λ l. told_party (words l)) (line.now ∷ [])) }
{
    if let Some(party) = party_in(line) {
        found.push(party)?;
    }
    Ok(())
}

// The parties that lines tell.
fn parties_in<'a>(alloc: Global, lines: &[&'a str]) -> Result<Vec<EarlierParty<'a>>, NoMemory>
    ensures { IfOk result (λ found. map party_told found.items ≡ filter_map (λ l. told_party (words l.now)) lines.now) }
{
    let mut found = Vec::new(alloc);
    for line in lines {
        push_party(&mut found, *line)?;
    }
    Ok(found)
}

// The parties that lines tell, and without a name those who sit without a party.
fn all_in<'a>(alloc: Global, lines: &[&'a str]) -> Result<Vec<EarlierParty<'a>>, NoMemory>
    ensures { IfOk result (λ found. map party_told found.items ≡ with_others (map (λ l. l.now) lines.now)) }
{
    let mut found = parties_in(alloc, lines)?;
    let seats = first_total(lines).saturating_sub(all_before(found.as_slice()));
    found.push(EarlierParty { name: "", seats })?;
    Ok(found)
}

/// The parties of a seat table in the order of its lines, and without a name those who sit without a party; or the number of the first line, from 1,
/// that is none of a seat table.
pub fn earlier_parties<'a>(
    alloc: Global,
    text: &'a str,
) -> Result<Result<Vec<EarlierParty<'a>>, usize>, NoMemory>
    ensures told { IfOk result (λ r. IfOk r (λ found. (is_table text.now ≡ true) × (map party_told found.items ≡ table_parties text.now))) }
    ensures refused { IfOk result (λ r. IfErr r (λ _. is_table text.now ≡ false)) }
{
    let lines: Vec<&str> = text.lines().collect(alloc)?;
    match first_wrong(lines.as_slice()) {
        Some(wrong) => Ok(Err(wrong.saturating_add(1))),
        None => Ok(Ok(all_in(alloc, lines.as_slice())?)),
    }
}
