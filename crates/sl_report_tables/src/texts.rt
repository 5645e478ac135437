//! The titles and words of this crate, in both languages: a new language is one more field of each message. What stands over columns stands in their rows.

pub(crate) use rows::*;

#[rattlefmt::skip]
mod rows {
    use sl_explain_texts::Message;

    // ---- faults

    pub(crate) const FAULT_TITLE: Message = ("Legal fault", "Kein Ergebnis nach dem Gesetz");
    pub(crate) const EXPLANATION_TITLE: Message = ("Explanation", "Erklärung");
    pub(crate) const KIND_LIMIT: Message = ("limit", "Grenze");
    pub(crate) const KIND_SHORT: Message = ("short", "zu wenig Sitze");
    pub(crate) const KIND_NO_LIST: Message = ("nolist", "keine Liste");
    pub(crate) const KIND_TIE: Message = ("tie", "Gleichstand");
    pub(crate) const KIND_MAJORITY: Message = ("majority", "Mehrheit");
    pub(crate) const KIND_CAP: Message = ("cap", "Obergrenze");

    // ---- titles

    pub(crate) const LAW_TITLE: Message = ("Law", "Gesetz");
    pub(crate) const PARTIES_TITLE: Message = ("Parties", "Parteien");
    pub(crate) const LISTS_TITLE: Message = ("Lists", "Listen");
    pub(crate) const DISTRIBUTIONS_TITLE: Message = ("Distributions", "Verteilungen");
    pub(crate) const STEPS_TITLE: Message = ("Steps of the seats", "Schritte der Sitze");
    pub(crate) const BOUNDS_TITLE: Message = ("Bounds of the divisors",
        "Schranken der Divisoren");
    pub(crate) const STAGES_TITLE: Message = ("Stages", "Stufen");

    /// The word before the name of a stage.
    pub(crate) const STAGE_TITLE: Message = ("Stage", "Stufe");
    pub(crate) const COVERED_TITLE: Message = ("Winners of lists with fewer seats, by share",
        "Wahlkreissieger von Listen mit weniger Sitzen, nach Anteil");
    pub(crate) const SINGLES_TITLE: Message = ("Winners who sit by themselves",
        "Wahlkreissieger, die ohne Liste sitzen");
    pub(crate) const OPEN_TITLE: Message = ("Constituencies whose winners are not seated",
        "Wahlkreise, deren Sieger keinen Sitz haben");
    pub(crate) const TOTALS_TITLE: Message = ("Totals", "Summen");
    pub(crate) const LANDS_TITLE: Message = ("Länder", "Länder");
    pub(crate) const WINNERS_TITLE: Message = ("Winners", "Wahlkreissieger");
    pub(crate) const WARNINGS_TITLE: Message = ("Warnings", "Warnungen");
    pub(crate) const RULEBOOKS_TITLE: Message = ("Rulebooks", "Regelwerke");
    pub(crate) const COMPARED_TITLE: Message = ("Seats by rulebook", "Sitze nach Regelwerk");
    pub(crate) const CHANGES_TITLE: Message = ("Seats more or fewer than by the first rulebook",
        "Sitze mehr oder weniger als nach dem ersten Regelwerk");
    pub(crate) const LIST_SEATS_TITLE: Message = ("Seats of lists by rulebook",
        "Sitze der Listen nach Regelwerk");
    pub(crate) const EACH_TITLE: Message = ("Seats of each party by each rulebook",
        "Sitze jeder Partei nach jedem Regelwerk");
    pub(crate) const PRESS_TITLE: Message = ("Seats, constituencies and votes",
        "Sitze, Wahlkreise und Stimmen");
    pub(crate) const LAST_SEATS_TITLE: Message = ("Last seats and next claims",
        "Letzte Sitze und nächste Ansprüche");
    pub(crate) const LEFT_OUT_TITLE: Message = ("The largest party that does not take part",
        "Die größte Partei, die nicht teilnimmt");

    /// In place of the party of a winner who has none.
    pub(crate) const NO_PARTY: Message = ("-", "-");

    /// The row of the winners who have none.
    pub(crate) const WITHOUT_PARTY: Message = ("without a party", "ohne Partei");

    // ---- words

    pub(crate) const SHAPE_ONE: Message = ("one", "eine Zahl");
    pub(crate) const SHAPE_PARTY: Message = ("party", "Partei");
    pub(crate) const SHAPE_LAND: Message = ("land", "Land");
    pub(crate) const SHAPE_LIST: Message = ("list", "Liste");
    pub(crate) const UNIT_SEATS: Message = ("seats", "Sitze");
    pub(crate) const UNIT_VOTES: Message = ("votes", "Stimmen");
}
