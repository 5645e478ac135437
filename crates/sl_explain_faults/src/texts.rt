//! All texts of this crate, in both languages, by topic: a new language is one more field of each. A name in braces stands for a value.

// Code files, and their runs.
#[rattlefmt::skip]
pub(crate) mod code_files {
    use sl_explain_texts::{FaultCode, Message, Sentence};

    // What is said of a file that does not begin as a code file.
    pub(crate) const EMPTY: Message = ("the code file is empty", "die Codedatei ist leer");
    pub(crate) const BOOK: Message = ("this is a rulebook and no code file",
        "dies ist ein Regelwerk und keine Codedatei");
    pub(crate) const RETURNS: Message = ("these are returns and no code file",
        "dies sind Wahlergebnisse und keine Codedatei");
    pub(crate) const MAGIC: Message = ("this is no code file: one begins with the letters SLC",
        "dies ist keine Codedatei: Eine solche beginnt mit den Buchstaben SLC");

    // What is said of its later bytes, by the offset from 0.
    pub(crate) const VERSION: Sentence = (FaultCode::C02, "byte {offset} of the code file: the version of the format is not 1",
        "Byte {offset} der Codedatei: Die Version des Formats ist nicht 1");
    pub(crate) const OP: Sentence = (FaultCode::C03, "byte {offset} of the code file has no meaning at its place",
        "Byte {offset} der Codedatei hat an seiner Stelle keine Bedeutung");
    pub(crate) const SHORT_CODE: Sentence = (FaultCode::C04, "the code file ends too early, after {offset} bytes",
        "die Codedatei endet zu früh, nach {offset} Bytes");
    pub(crate) const TRAILING: Sentence = (FaultCode::C05, "the code ends before byte {offset}, and the file goes on",
        "der Code endet vor Byte {offset}, und die Datei geht weiter");
    pub(crate) const CODE_LIMIT: Sentence = (FaultCode::C06, "byte {offset} of the code file begins a number of stages, slots or instructions that is too great",
        "Byte {offset} der Codedatei beginnt eine zu große Zahl von Stufen, Spalten oder Befehlen");
    pub(crate) const LONG: Sentence = (FaultCode::C14, "the code file has more than 4,194,304 bytes",
        "die Codedatei hat mehr als 4.194.304 Bytes");
    pub(crate) const BUDGET: Sentence = (FaultCode::C15, "the run of the code file takes more steps than any rulebook's does, and was stopped",
        "der Lauf der Codedatei braucht mehr Schritte als der irgendeines Regelwerks und wurde abgebrochen");

    // What the verifier refuses, by the number of the instruction.
    pub(crate) const JUMP: Sentence = (FaultCode::C07, "instruction {number} of the code jumps to a place without a declaration",
        "Befehl {number} des Codes springt an eine Stelle ohne Erklärung");
    pub(crate) const REGISTER: Sentence = (FaultCode::C08, "instruction {number} of the code names a register that does not exist",
        "Befehl {number} des Codes nennt ein Register, das es nicht gibt");
    pub(crate) const KIND: Sentence = (FaultCode::C09, "instruction {number} of the code needs a register that is not 0, or a cursor that is set",
        "Befehl {number} des Codes braucht ein Register, das nicht 0 ist, oder einen gesetzten Zeiger");
    pub(crate) const SLOT: Sentence = (FaultCode::C10, "instruction {number} of the code names a column or a stage that does not exist, or a column of another shape",
        "Befehl {number} des Codes nennt eine Spalte oder Stufe, die es nicht gibt, oder eine Spalte anderer Form");
    pub(crate) const TABLE: Sentence = (FaultCode::C11, "instruction {number} of the code needs another priority table",
        "Befehl {number} des Codes braucht eine andere Rangtabelle");
    pub(crate) const MEET: Sentence = (FaultCode::C12, "at instruction {number} of the code two ways meet with unlike knowledge, or no way leads there",
        "bei Befehl {number} des Codes treffen sich zwei Wege mit ungleichem Wissen, oder kein Weg führt hin");
    pub(crate) const RUNS_OFF: Sentence = (FaultCode::C13, "nothing stands after instruction {number} of the code, where it goes on",
        "hinter Befehl {number} des Codes steht nichts, wo er weitergeht");

    // What to do.
    pub(crate) const AGAIN: Message = ("write the file again from its rulebook: `seatlaw code book.law book.slc`",
        "die Datei aus ihrem Regelwerk neu schreiben: `seatlaw code book.law book.slc`");
    pub(crate) const CHANGED: Message = ("a file that `code` has written and nobody has changed is never refused: maybe it was cut off or edited on its way",
        "eine Datei, die `code` schrieb und niemand änderte, wird nie abgelehnt: Vielleicht wurde sie unterwegs gekürzt oder geändert");
    pub(crate) const COUNT: Message = ("a rulebook is counted by `count`: `seatlaw count book.law returns.csv`",
        "ein Regelwerk zählt `count`: `seatlaw count book.law returns.csv`");
    pub(crate) const ORDER: Message = ("the order is CODE, then RETURNS: `seatlaw run book.slc returns.csv`",
        "die Reihenfolge ist CODE, dann RETURNS: `seatlaw run book.slc returns.csv`");
}

// Legal faults.
#[rattlefmt::skip]
pub(crate) mod legal {
    use sl_explain_texts::{FaultCode, Message, Sentence};

    // What happened.
    pub(crate) const LIMIT: Sentence = (FaultCode::L01, "stage `{stage:shown}`, {scope}: there are more than {most} seats to distribute",
        "Stufe `{stage:shown}`, {scope}: Es sind mehr als {most} Sitze zu vergeben");
    pub(crate) const SHORT: Sentence = (FaultCode::L02, "stage `{stage:shown}`, {scope}: the minima (`atleast`) need more seats than there are to distribute",
        "Stufe `{stage:shown}`, {scope}: Die Mindestzahlen (`atleast`) verlangen mehr Sitze, als zu vergeben sind");
    pub(crate) const NO_LIST: Sentence = (FaultCode::L03, "stage `{stage:shown}`, {scope}: there are seats to distribute, and no entry that takes part has votes",
        "Stufe `{stage:shown}`, {scope}: Es sind Sitze zu vergeben, und niemand, der teilnimmt, hat Stimmen");
    pub(crate) const TIE: Sentence = (FaultCode::L04, "stage `{stage:shown}`, {scope}: for {seats} there are {claims} equal claims, those of {names}; a lot has to decide",
        "Stufe `{stage:shown}`, {scope}: Für {seats} gibt es {claims} gleiche Ansprüche, die von {names}; ein Los muss entscheiden");
    pub(crate) const MAJORITY: Sentence = (FaultCode::L05, "stage `{stage:shown}`, {scope}: an entry with more than half of the votes would get no more than half of the seats, and the rulebook has no rule for it",
        "Stufe `{stage:shown}`, {scope}: Wer mehr als die Hälfte der Stimmen hat, erhielte nicht mehr als die Hälfte der Sitze; dafür hat das Regelwerk keine Regel");
    pub(crate) const CAP: Sentence = (FaultCode::L06, "stage `{stage:shown}`, {scope}: no house up to the cap gives every entry its minimum",
        "Stufe `{stage:shown}`, {scope}: Kein Haus bis zur Obergrenze gibt allen ihre Mindestzahl");

    // Numbers of things.
    pub(crate) const SEAT: Message = ("{number} seat", "{number} Sitz");
    pub(crate) const SEATS: Message = ("{number} seats", "{number} Sitze");
    pub(crate) const WINNER: Message = ("{number} winner", "{number} Wahlkreissieger");
    pub(crate) const WINNERS: Message = ("{number} winners", "{number} Wahlkreissieger");
    pub(crate) const LIST: Message = ("{number} list", "{number} Liste");
    pub(crate) const LISTS: Message = ("{number} lists", "{number} Listen");

    // What to do.
    pub(crate) const FEWER_SEATS: Message = ("in a rulebook of your own, distribute fewer seats there: sums of `larger` columns can be so great",
        "in einem eigenen Regelwerk dort weniger Sitze vergeben: Summen von `larger`-Spalten können so groß sein");
    pub(crate) const MORE_SEATS: Message = ("in a rulebook of your own, distribute more seats there, or write `grow` in place of `split`",
        "in einem eigenen Regelwerk dort mehr Sitze vergeben, oder `grow` statt `split` schreiben");
    pub(crate) const COMPARE: Message = ("the returns have {winners} there; compare their number with the official list",
        "die Wahlergebnisse haben dort {winners}; ihre Zahl mit der amtlichen Liste vergleichen");
    pub(crate) const NO_RECORD: Message = ("the returns have no `list` record there: add one for each list, as `list,LAND,PARTY,VALID,COUNTED,`",
        "die Wahlergebnisse haben dort keinen `list`-Datensatz: für jede Liste einen einfügen, wie `list,LAND,PARTEI,GÜLTIGE,GEZÄHLTE,`");
    pub(crate) const NO_VOTES: Message = ("{lists} there, without counted votes: correct column b of the `list` records",
        "{lists} dort, ohne gezählte Stimmen: Spalte b der `list`-Datensätze berichtigen");
    pub(crate) const NOBODY: Message = ("{lists} there, with {counted} counted votes in all: maybe no party of these meets `eligible` of the rulebook; compare the valid votes (column a)",
        "{lists} dort, mit zusammen {counted} gezählten Stimmen: Vielleicht erfüllt keine Partei davon `eligible` des Regelwerks; gültige Stimmen (Spalte a) vergleichen");
    pub(crate) const NO_PEOPLE: Message = ("each Land has the population 0: write the people into column a of the `land` records",
        "jedes Land hat 0 Einwohner: die Einwohner in Spalte a der `land`-Datensätze schreiben");
    pub(crate) const HALF: Message = ("party `{party}` has {own} of the {all} counted votes there",
        "die Partei `{party}` hat {own} der {all} gezählten Stimmen dort");
    pub(crate) const NO_RULE: Message = ("correct returns cannot change this: the statutes from 2008 on give the party further seats, up to more than half (Mehrheitsklausel), and a rulebook cannot say so; without `majority refuse` it shows the seats before that, and the further ones are added by hand",
        "richtige Wahlergebnisse können daran nichts ändern: Die Gesetze seit 2008 geben der Partei weitere Sitze, bis es mehr als die Hälfte sind (Mehrheitsklausel), und ein Regelwerk kann das nicht sagen; ohne `majority refuse` zeigt es die Sitze davor, und die weiteren zählt man von Hand dazu");
    pub(crate) const HEAVIEST: Message = ("the {list} has the most winners for its votes: {winners} for {counted} counted votes; correct one of the two, if it is wrong",
        "die {list} hat die meisten Wahlkreissieger für ihre Stimmen: {winners} bei {counted} gezählten; eines von beiden berichtigen, wenn es falsch ist");
    pub(crate) const RAISE_CAP: Message = ("in a rulebook of your own, raise the last number of `grow`, up to {most}",
        "in einem eigenen Regelwerk die letzte Zahl von `grow` erhöhen, bis {most}");
}

// Lots that decide a tie.
#[rattlefmt::skip]
pub(crate) mod lots {
    use sl_explain_texts::Message;

    // What to do.
    pub(crate) const DRAW: Message = ("have the lot drawn by the person the statute designates; then write one record for each into the returns, in the order of the lot and not of this list, the first drawn at the top:",
        "das Los ziehen lassen, wie das Gesetz es bestimmt; dann für jeden eine Zeile in die Wahlergebnisse, in der Reihenfolge des Loses und nicht dieser Liste, der zuerst Gezogene oben:");

    // Lots without an effect, of stages that the book does not have.
    pub(crate) const NEAR_STAGE: Message = ("lots without an effect: {lots}, of a stage `{stage:shown}` that the rulebook lacks; did you mean `{near:shown}`?",
        "Lose ohne Wirkung: {lots}, von einer Stufe `{stage:shown}`, die das Regelwerk nicht hat; war `{near:shown}` gemeint?");
    pub(crate) const NO_STAGE: Message = ("lots without an effect: {lots}, of a stage `{stage:shown}` that the rulebook lacks; it has {stages}",
        "Lose ohne Wirkung: {lots}, von einer Stufe `{stage:shown}`, die das Regelwerk nicht hat; es hat {stages}");

    // Lots without an effect, of the stage of the tie.
    pub(crate) const NOT_PARTIES: Message = ("lots without an effect: {lots} of this stage; it is between parties, so a lot has no Land and no constituency",
        "Lose ohne Wirkung: {lots} dieser Stufe; es geht um Parteien: Ein Los hat kein Land und keinen Wahlkreis");
    pub(crate) const NOT_LANDS: Message = ("lots without an effect: {lots} of this stage; it is between Länder, so a lot has no party",
        "Lose ohne Wirkung: {lots} dieser Stufe; es geht um Länder: Ein Los hat keine Partei");
    pub(crate) const NOT_LISTS: Message = ("lots without an effect: {lots} of this stage; it is between lists, so a lot has both a Land and a party",
        "Lose ohne Wirkung: {lots} dieser Stufe; es geht um Listen: Ein Los hat ein Land und eine Partei");
    pub(crate) const NOT_WINNERS: Message = ("lots without an effect: {lots} of `seats`; a lot has the constituency, and the Land and the party of its `win` record",
        "Lose ohne Wirkung: {lots} von `seats`; ein Los hat den Wahlkreis, und Land und Partei seines `win`-Datensatzes");
    pub(crate) const MISSING: Message = ("the lots of this stage name only some of the tied entries, and so have no effect; also name {names}",
        "die Lose dieser Stufe nennen nur einige der Gleichen und bleiben ohne Wirkung; auch zu nennen: {names}");
}

// Scopes.
#[rattlefmt::skip]
pub(crate) mod words {
    use sl_explain_texts::Message;

    pub(crate) const ALL: Message = ("whole country", "ganzes Bundesgebiet");
    pub(crate) const LAND: Message = ("Land `{land}`", "Land `{land}`");
    pub(crate) const PARTY: Message = ("party `{party}`", "Partei `{party}`");
    pub(crate) const LIST_OF: Message = ("list of `{party}` in `{land}`",
        "Liste von `{party}` in `{land}`");
}
