//! Warnings of returns alone.

ghost use Rattle.std.specs.List.{list_all};
ghost use Rattle.std.specs.Prelude.{◌≡◌, ◌<◌, ◌++◌, OnOk, flat_map, nat_eq, slice_get};
ghost use Rattle.std.specs.Str.{str_eq_ignore_ascii_case};
ghost use Rattle.sl_law_meaning.specs.returns.Election.{lands_of, list_at, parties_of};
ghost use Rattle.sl_law_meaning.specs.returns.Facts.{all_valid_votes, lands, parties};
ghost use Rattle.sl_report_warnings.specs.Warnings.{are_alike, counts_none, has_name_of_many, has_name_of_sum, has_none, is_everywhere, is_many, of_land, of_name, of_party, of_place, of_returns, of_votes, of_winners, uncounted_lists, warned, winners_beside};

use crate::warning::Warning;
use sl_base_quotients::NoMemory;
use sl_explain_texts::is_sum;
use sl_report_parties::{WinnerCounts, all_votes, first_votes_in, land_votes, lists_of, one_if};
use sl_stages::Returns;

/// Adds a warning where something holds.
pub(crate) fn warn(found: &mut Vec<Warning>, holds: bool, warning: Warning) -> Result<(), NoMemory>
    ensures { OnOk result (found.new.items ≡ found.old.items ++ warned holds warning) }
{
    if holds {
        found.push(warning)?;
    }
    Ok(())
}

// Whether all Länder have so many people.
fn have_all(returns: &Returns, people: u32) -> bool
    ensures { result ≡ list_all (nat_eq people) returns.now.populations }
{
    for land in 0..returns.lands() {
        if people != returns.population(land) {
            return false;
        }
    }
    true
}

// Whether there are several Länder, all with as many people as the first.
fn are_alike(returns: &Returns) -> bool
    ensures { result ≡ are_alike returns.now }
{
    returns.lands() >= 2 && have_all(returns, returns.population(0))
}

// Whether a Land has no winners, where there are some.
fn has_none(counts: &WinnerCounts<'_>, land: usize) -> bool
    requires { land < lands_of counts.now.returns.now }
    ensures { result ≡ has_none counts.now.returns.now land }
{
    counts.returns.wins() >= 1 && counts.in_land(land) == 0
}

// Warns of votes in a Land that cannot be, where there are so many valid votes in all.
#[tactic(auto, using(std::proofs::Common::append_assoc))]
fn warn_of_votes(
    found: &mut Vec<Warning>,
    returns: &Returns,
    all: u64,
    land: usize,
) -> Result<(), NoMemory>
    requires land { land < lands_of returns.now }
    requires all { all ≡ all_valid_votes returns.now }
    ensures { OnOk result (found.new.items ≡ found.old.items ++ of_votes returns.now land) }
{
    let votes = land_votes(returns, land).valid;
    let people = returns.population(land);
    let first = first_votes_in(returns, land);
    let twice = 2 * u128::from(votes);
    let has_none = people >= 1 && (votes == 0 && all >= 1);
    warn(found, has_none, Warning::LandWithoutVotes { land })?;
    let has_more = people >= 1 && u64::from(people) < votes;
    let warning = Warning::MoreVotesThanPeople {
        land,
        votes,
        people,
    };
    warn(found, has_more, warning)?;
    let has_few = votes >= 1 && twice < u128::from(first);
    warn(
        found,
        has_few,
        Warning::FewSecondVotes { land, votes, first },
    )?;
    let is_sum = returns.lands() >= 3 && (votes >= 1 && twice == u128::from(all));
    warn(found, is_sum, Warning::LandIsSum { land })
}

// Warns of a Land without winners, and of votes that cannot be.
#[tactic(auto, using(std::proofs::Common::append_assoc))]
fn warn_of_land(
    found: &mut Vec<Warning>,
    counts: &WinnerCounts<'_>,
    all: u64,
    land: usize,
) -> Result<(), NoMemory>
    requires land { land < lands_of counts.now.returns.now }
    requires all { all ≡ all_valid_votes counts.now.returns.now }
    ensures { OnOk result (found.new.items ≡ found.old.items ++ of_land counts.now.returns.now land) }
{
    let has_none = has_none(counts, land);
    warn(found, has_none, Warning::LandWithoutWinners { land })?;
    warn_of_votes(found, counts.returns, all, land)
}

fn warn_of_lands(found: &mut Vec<Warning>, counts: &WinnerCounts<'_>) -> Result<(), NoMemory>
    ensures { OnOk result (found.new.items ≡ found.old.items ++ flat_map (of_land counts.now.returns.now) (lands counts.now.returns.now)) }
{
    let all = all_votes(counts.returns).valid;
    for land in 0..counts.returns.lands() {
        warn_of_land(found, counts, all, land)?;
    }
    Ok(())
}

// The winners of a party in a Land in which it has no list.
fn winners_beside(counts: &WinnerCounts<'_>, party: usize, land: usize) -> u64
    requires land { land < lands_of counts.now.returns.now }
    requires party { party < parties_of counts.now.returns.now }
    ensures { result ≡ winners_beside counts.now.returns.now party land }
{
    if counts.returns.is_list(land, party) {
        0
    } else {
        counts.at(land, party)
    }
}

// Warns of the winners of a party in a Land in which it has no list.
fn warn_of_place(
    found: &mut Vec<Warning>,
    counts: &WinnerCounts<'_>,
    party: usize,
    land: usize,
) -> Result<(), NoMemory>
    requires land { land < lands_of counts.now.returns.now }
    requires party { party < parties_of counts.now.returns.now }
    ensures { OnOk result (found.new.items ≡ found.old.items ++ of_place counts.now.returns.now party land) }
{
    let winners = winners_beside(counts, party, land);
    let warning = Warning::WinnersBesideLists {
        land,
        party,
        winners,
    };
    warn(found, winners >= 1, warning)
}

fn warn_of_places(
    found: &mut Vec<Warning>,
    counts: &WinnerCounts<'_>,
    party: usize,
) -> Result<(), NoMemory>
    requires { party < parties_of counts.now.returns.now }
    ensures { OnOk result (found.new.items ≡ found.old.items ++ flat_map (of_place counts.now.returns.now party) (lands counts.now.returns.now)) }
{
    for land in 0..counts.returns.lands() {
        warn_of_place(found, counts, party, land)?;
    }
    Ok(())
}

// Warns of the winners of a party beside its lists.
fn warn_of_winners(
    found: &mut Vec<Warning>,
    counts: &WinnerCounts<'_>,
    party: usize,
) -> Result<(), NoMemory>
    requires { party < parties_of counts.now.returns.now }
    ensures { OnOk result (found.new.items ≡ found.old.items ++ of_winners counts.now.returns.now party) }
{
    let winners = counts.of(party);
    if winners == 0 {
        return Ok(());
    }
    if lists_of(counts.returns, party) == 0 {
        found.push(Warning::WinnersWithoutList { party, winners })?;
        return Ok(());
    }
    warn_of_places(found, counts, party)
}

// Whether a party has a list in a Land of which no valid vote is counted.
fn counts_none(returns: &Returns, party: usize, land: usize) -> bool
    requires land { land < lands_of returns.now }
    requires party { party < parties_of returns.now }
    ensures { result ≡ counts_none (list_at returns.now land party) }
{
    returns.valid(land, party) >= 1 && returns.counted(land, party) == 0
}

// How many lists of a party have valid votes of which none is counted.
fn uncounted_lists(returns: &Returns, party: usize) -> u64
    requires { party < parties_of returns.now }
    ensures { result ≡ uncounted_lists returns.now party }
{
    let mut lists = 0u64;
    for land in 0..returns.lands() {
        lists += one_if(counts_none(returns, party, land));
    }
    lists
}

// Whether a name is a word, in capital or in small letters.
fn is_word(name: &[u8], word: &str) -> bool
    ensures { result ≡ str_eq_ignore_ascii_case name.now word.now }
{
    name.eq_ignore_ascii_case(word.as_bytes())
}

// Whether a name says that it stands for several parties.
fn is_many(name: &[u8]) -> bool
    ensures { result ≡ is_many name.now }
{
    is_word(name, "Sonstige")
        || is_word(name, "Sonst")
        || is_word(name, "Andere")
        || is_word(name, "Uebrige")
        || is_word(name, "Weitere")
        || is_word(name, "Rest")
        || is_word(name, "Others")
        || is_word(name, "Other")
        || is_word(name, "Sonstige_Parteien")
        || is_word(name, "Andere_Parteien")
        || is_word(name, "Uebrige_Parteien")
        || is_word(name, "Other_parties")
}

// Whether the name of a party says that it stands for several.
fn has_name_of_many(returns: &Returns, party: usize) -> bool
    requires { party < parties_of returns.now }
    ensures { result ≡ has_name_of_many (slice_get returns.now.party_names party) }
{
    is_many(returns.party_name(party))
}

// Whether the name of a party is a word for a sum.
fn has_name_of_sum(returns: &Returns, party: usize) -> bool
    requires { party < parties_of returns.now }
    ensures { result ≡ has_name_of_sum (slice_get returns.now.party_names party) }
{
    is_sum(returns.party_name(party))
}

// Warns of the name of a party.
#[tactic(auto, using(std::proofs::Common::append_assoc))]
fn warn_of_name(found: &mut Vec<Warning>, returns: &Returns, party: usize) -> Result<(), NoMemory>
    requires { party < parties_of returns.now }
    ensures { OnOk result (found.new.items ≡ found.old.items ++ of_name returns.now party) }
{
    let is_many = has_name_of_many(returns, party);
    warn(found, is_many, Warning::SeveralParties { party })?;
    let is_sum = has_name_of_sum(returns, party);
    warn(found, is_sum, Warning::SumOfParties { party })
}

// Whether a party is one of a national minority, with a list in each of three Länder or more.
fn is_everywhere(returns: &Returns, party: usize) -> bool
    requires { party < parties_of returns.now }
    ensures { result ≡ is_everywhere returns.now party }
{
    let lands = returns.lands();
    returns.minority(party) && (lands >= 3 && lists_of(returns, party) == lands as u64)
}

// Warns of what is likely a mistake of a party.
#[tactic(auto, using(std::proofs::Common::append_assoc))]
fn warn_of_party(
    found: &mut Vec<Warning>,
    counts: &WinnerCounts<'_>,
    party: usize,
) -> Result<(), NoMemory>
    requires { party < parties_of counts.now.returns.now }
    ensures { OnOk result (found.new.items ≡ found.old.items ++ of_party counts.now.returns.now party) }
{
    warn_of_winners(found, counts, party)?;
    let lists = uncounted_lists(counts.returns, party);
    warn(found, lists >= 1, Warning::NothingCounted { party, lists })?;
    warn_of_name(found, counts.returns, party)?;
    let is_everywhere = is_everywhere(counts.returns, party);
    warn(found, is_everywhere, Warning::MinorityEverywhere { party })
}

// Warns of what is likely a mistake of a party, for each.
fn warn_of_parties(found: &mut Vec<Warning>, counts: &WinnerCounts<'_>) -> Result<(), NoMemory>
    ensures { OnOk result (found.new.items ≡ found.old.items ++ flat_map (of_party counts.now.returns.now) (parties counts.now.returns.now)) }
{
    for party in 0..counts.returns.parties() {
        warn_of_party(found, counts, party)?;
    }
    Ok(())
}

/// Adds the warnings of returns alone, by how many winners there are.
#[tactic(auto, using(std::proofs::Common::append_assoc))]
pub(crate) fn warn_of_returns(
    found: &mut Vec<Warning>,
    counts: &WinnerCounts<'_>,
) -> Result<(), NoMemory>
    ensures { OnOk result (found.new.items ≡ found.old.items ++ of_returns counts.now.returns.now) }
{
    warn(found, are_alike(counts.returns), Warning::EqualPeople)?;
    warn_of_lands(found, counts)?;
    warn_of_parties(found, counts)
}
