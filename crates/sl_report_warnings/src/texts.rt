//! Texts of warnings. A name in braces stands for a value.

pub(crate) use rows::*;

#[rattlefmt::skip]
mod rows {
    use sl_explain_texts::Message;

    pub(crate) const EQUAL_PEOPLE: Message = ("all Länder have the same people; the statute of 2013 splits the house by them",
        "alle Länder haben gleich viele Einwohner; das Gesetz von 2013 verteilt die Sitze nach ihnen");
    pub(crate) const LAND_WITHOUT_WINNERS: Message = ("no constituency of {land} has a winner",
        "kein Wahlkreis von {land} hat einen Sieger");
    pub(crate) const WINNERS_WITHOUT_LIST: Message = ("{party} has {winners} and no list",
        "{party} hat {winners} und keine Liste");
    pub(crate) const WINNERS_BESIDE_LISTS: Message = ("{party} has {winners} in {land} and no list there",
        "{party} hat {winners} in {land} und dort keine Liste");
    pub(crate) const NOTHING_COUNTED: Message = ("{lists} of {party} with valid votes, of which none is counted: column b is 0",
        "{lists} von {party} mit gültigen Stimmen, von denen keine zählt: Spalte b ist 0");
    pub(crate) const SEVERAL_PARTIES: Message = ("{party} stands for several parties by its name, and takes part as one",
        "{party} steht dem Namen nach für mehrere Parteien und nimmt als eine teil");
    pub(crate) const LOT_UNUSED: Message = ("a lot names {stage}, where the rulebook draws none",
        "ein Los nennt {stage}, wo das Regelwerk keines zieht");
    pub(crate) const LOT_OF_NO_PARTY: Message = ("a lot for {stage} names no party: it is drawn among parties, so the Land stays empty",
        "ein Los für {stage} nennt keine Partei: gezogen wird unter Parteien, das Land bleibt leer");
    pub(crate) const LOT_OF_NO_LAND: Message = ("a lot for {stage} names no Land: it is drawn among Länder, so the party stays empty",
        "ein Los für {stage} nennt kein Land: gezogen wird unter Ländern, die Partei bleibt leer");
    pub(crate) const LOT_OF_NO_LIST: Message = ("a lot for {stage} names no list: it is drawn among lists, so it names Land and party",
        "ein Los für {stage} nennt keine Liste: gezogen wird unter Listen, es nennt Land und Partei");
    pub(crate) const LOT_OF_NO_WINNER: Message = ("a lot for {stage} names no winner with the winner's Land and party",
        "ein Los für {stage} nennt keinen Wahlkreissieger mit dessen Land und Partei");
    pub(crate) const LOT_OF_NO_SEATS: Message = ("a lot for {stage} names a party that takes no part, or a list that does not exist",
        "ein Los für {stage} nennt eine Partei, die nicht teilnimmt, oder eine Liste, die fehlt");
    pub(crate) const OTHER_HOUSE: Message = ("the returns have a house of {returns}, the rulebook of {book}",
        "die Ergebnisse haben eine Hausgröße von {returns}, das Regelwerk von {book}");
    pub(crate) const FEW_PARTIES: Message = ("{parties} alone: a threshold needs the votes of all parties",
        "nur {parties}: eine Sperrklausel braucht die Stimmen aller Parteien");
    pub(crate) const LAND_WITHOUT_VOTES: Message = ("{land} has people and no votes: is the file complete?",
        "{land} hat Einwohner und keine Stimmen: Ist die Datei vollständig?");
    pub(crate) const MORE_VOTES_THAN_PEOPLE: Message = ("{land} has {votes} valid votes and {people} people",
        "{land} hat {votes} gültige Stimmen und {people} Einwohner");
    pub(crate) const FEW_SECOND_VOTES: Message = ("{land} has {votes} second votes, and {first} first votes",
        "{land} hat {votes} Zweitstimmen, und {first} Erststimmen");
    pub(crate) const LAND_IS_SUM: Message = ("{land} has as many votes as all other Länder together",
        "{land} hat so viele Stimmen wie alle anderen Länder zusammen");
    pub(crate) const SUM_OF_PARTIES: Message = ("{party} is a word for a sum, and takes part as a party",
        "{party} ist ein Wort für eine Summe und nimmt als Partei teil");
    pub(crate) const MINORITY_EVERYWHERE: Message = ("{party} is marked as a party of a national minority, and has lists in all Länder",
        "{party} ist als Partei einer nationalen Minderheit angegeben und hat in allen Ländern Listen");
    pub(crate) const FEW_VOTES: Message = ("{votes} valid votes for {seats} seats: are they percentages, or thousands?",
        "{votes} gültige Stimmen für {seats} Sitze: Sind es Prozentzahlen oder Tausender?");
    pub(crate) const ONE_PARTY_ALONE: Message = ("{party} alone takes part, and gets all seats",
        "{party} allein nimmt teil und bekommt alle Sitze");
    pub(crate) const STAGE_UNUSED: Message = ("no other clause names stage {number} of the rulebook: no seat depends on it",
        "keine andere Klausel nennt Stufe {number} des Regelwerks: Kein Sitz hängt von ihr ab");
    pub(crate) const OTHERS: Message = (" (and {others} more of this kind)", " (und {others} weitere dieser Art)");
    pub(crate) const WINNER: Message = ("{number} winner", "{number} Wahlkreissieger");
    pub(crate) const WINNERS: Message = ("{number} winners", "{number} Wahlkreissieger");
    pub(crate) const LIST: Message = ("{number} list", "{number} Liste");
    pub(crate) const LISTS: Message = ("{number} lists", "{number} Listen");
    pub(crate) const PARTY: Message = ("{number} party", "{number} Partei");
    pub(crate) const PARTIES: Message = ("{number} parties", "{number} Parteien");
}
