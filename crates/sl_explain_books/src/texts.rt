//! All texts of this crate, in both languages, by topic: a new language is one more field of each. A name in braces stands for a value.

// Texts of further clauses that are refused.
#[rattlefmt::skip]
pub(crate) mod further {
    use sl_explain_texts::Message;

    pub(crate) const ALSO: Message = ("also refused, with these clauses left out:",
        "auch abgelehnt, wenn man diese Klauseln weglässt:");

    pub(crate) const LINE: Message = ("  line {line}: {said}", "  Zeile {line}: {said}");
    pub(crate) const MORE: Message = ("  and {number} more", "  und {number} weitere");
}

// Texts of tokens that are no rulebook.
#[rattlefmt::skip]
pub(crate) mod grammar {
    use sl_explain_texts::{FaultCode, Message, Sentence};

    pub(crate) const FOUND: Sentence = (FaultCode::B07, "`{found:shown}` cannot stand here; expected {expected}",
        "`{found:shown}` kann hier nicht stehen; erwartet wird {expected}");
    pub(crate) const ENDED: Sentence = (FaultCode::B07, "the rulebook ends here and is not complete; expected {expected}",
        "das Regelwerk endet hier und ist nicht vollständig; erwartet wird {expected}");
    pub(crate) const NO_CLAUSE: Sentence = (FaultCode::B07, "the file has no clause, but blanks and comments alone",
        "die Datei hat keine Klausel, nur Leerraum und Kommentare");
    pub(crate) const NO_SEMICOLON: Sentence = (FaultCode::B07, "a `;` is missing after `{word:shown}`",
        "hinter `{word:shown}` fehlt ein `;`");
    pub(crate) const SEMICOLON: Message = ("each clause ends with `;`",
        "jede Klausel endet mit `;`");
    pub(crate) const SURPLUS: Message = ("delete it, or put a `(` where one is missing before it",
        "sie löschen, oder eine `(` setzen, wo davor eine fehlt");
    pub(crate) const DOUBLE: Message = ("delete it: one `;` ends a clause",
        "es löschen: ein `;` beendet eine Klausel");
    pub(crate) const NO_FORM: Sentence = (FaultCode::B07, "there is no form `{form}(..)`",
        "es gibt keine Form `{form}(..)`");
    pub(crate) const FORMS_EXPLAINED: Message = ("the forms are `sum(e, party)`, `larger(e, f)` for the greater of two, `less(e, f)` for a difference, `split(seats, votes, method)` and `grow(seats, votes, method, minima, cap)`",
        "die Formen sind `sum(e, party)`, `larger(e, f)` für das größere von zweien, `less(e, f)` für eine Differenz, `split(seats, votes, method)` und `grow(seats, votes, method, minima, cap)`");
    pub(crate) const RESERVED: Message = ("`{word}` is a word of the language, and no name: choose another",
        "`{word}` ist ein Wort der Sprache und kein Name: einen anderen wählen");
    pub(crate) const AFTER: Sentence = (FaultCode::B10, "`{word:shown}` stands after the last clause, `seats ..;`, which ends a rulebook",
        "`{word:shown}` steht hinter der letzten Klausel, `seats ..;`, mit der ein Regelwerk endet");
    pub(crate) const AFTER_STAGE: Message = ("move this stage up, above the clause `seats ..;`",
        "diese Stufe nach oben setzen, über die Klausel `seats ..;`");
    pub(crate) const AFTER_BOOK: Message = ("a file has one rulebook: put the second one into a file of its own",
        "eine Datei hat ein Regelwerk: das zweite in eine eigene Datei setzen");
    pub(crate) const AFTER_OTHER: Message = ("delete what stands after it, or begin it with `#` as a comment",
        "löschen, was dahinter steht, oder es mit `#` als Kommentar beginnen");
    pub(crate) const BEGINNING: Message = ("a rulebook begins with `rulebook 1;`, and then `law \"..\";`, `house ..;` and `eligible ..;`; is it the right file?",
        "ein Regelwerk beginnt mit `rulebook 1;`, und dann `law \"..\";`, `house ..;` und `eligible ..;`; ist es die richtige Datei?");
    pub(crate) const LAW_TEXT: Message = ("the name of the law stands in straight quotes: `law \"My law\";`",
        "der Name des Gesetzes steht in geraden Anführungszeichen: `law \"Mein Gesetz\";`");
    pub(crate) const JOINED: Message = ("conditions are joined by `or`, and the clause ends with `;`",
        "Bedingungen werden mit `or` verbunden, und die Klausel endet mit `;`");
    pub(crate) const CONDITIONS: Message = ("a condition is `valid at least 5 per 100`, `winners at least 3`, `minority` or `all`",
        "eine Bedingung ist `valid at least 5 per 100`, `winners at least 3`, `minority` oder `all`");
    pub(crate) const PER: Message = ("5 percent of the valid votes are `valid at least 5 per 100`, 4.5 percent `valid at least 45 per 1000`; three constituencies are `winners at least 3`",
        "5 Prozent der gültigen Stimmen sind `valid at least 5 per 100`, 4,5 Prozent `valid at least 45 per 1000`; drei Wahlkreise sind `winners at least 3`");
    pub(crate) const EXPRESSION: Message = ("an expression is a column of the returns, a stage above, or one of the forms `sum(..)`, `larger(..)`, `less(..)`, `split(..)` and `grow(..)`; it has no numbers of its own",
        "ein Ausdruck ist eine Spalte der Wahlergebnisse, eine Stufe darüber, oder eine der Formen `sum(..)`, `larger(..)`, `less(..)`, `split(..)` und `grow(..)`; eigene Zahlen hat er nicht");
    pub(crate) const MINIMA: Message = ("minima are a column of seats, as in `atleast winners`; the methods `adams`, `dean` and `hill` give each at least one seat by themselves",
        "Mindestzahlen sind eine Spalte von Sitzen, wie in `atleast winners`; die Verfahren `adams`, `dean` und `hill` geben jedem von selbst mindestens einen Sitz");
    pub(crate) const METHODS: Message = ("`webster` is Sainte-Laguë, `jefferson` is d'Hondt, `hamilton` is Hare/Niemeyer",
        "`webster` ist Sainte-Laguë, `jefferson` ist d'Hondt, `hamilton` ist Hare/Niemeyer");
    pub(crate) const AXES: Message = ("`sum(.., party)` and `sum(.., land)` add up lists by party or by Land, `sum(.., all)` adds up everything",
        "`sum(.., party)` und `sum(.., land)` zählen Listen je Partei oder je Land zusammen, `sum(.., all)` alles");
    pub(crate) const OPTIONS: Message = ("after the method may stand minima, `atleast ..`, and then `majority prefer` or `majority refuse`",
        "hinter dem Verfahren dürfen Mindestzahlen stehen, `atleast ..`, und dann `majority prefer` oder `majority refuse`");
    pub(crate) const MAJORITY: Message = ("the clause is `majority prefer` or `majority refuse`; in `grow` it is `majority refuse` alone",
        "die Angabe ist `majority prefer` oder `majority refuse`; in `grow` nur `majority refuse`");
    pub(crate) const STAGE_OR_SEATS: Message = ("here stands a stage, `stage NAME = ..;`, or the last clause, `seats NAME keep;` or `seats NAME cover;`",
        "hier steht eine Stufe, `stage NAME = ..;`, oder die letzte Klausel, `seats NAME keep;` oder `seats NAME cover;`");
    pub(crate) const SEATING: Message = ("with `keep` all constituency winners are seated, with `cover` as many as their list has seats",
        "mit `keep` sitzen alle Wahlkreissieger, mit `cover` so viele, wie ihre Liste Sitze hat");
    pub(crate) const BASE: Message = ("`seats` names the stage that has the seats of the lists, as in `seats lower cover;`",
        "`seats` nennt die Stufe mit den Sitzen der Listen, wie in `seats lower cover;`");
    pub(crate) const STAGE: Message = ("a stage is written `stage NAME = ..;`",
        "eine Stufe wird `stage NAME = ..;` geschrieben");
    pub(crate) const ORDER: Message = ("the clauses come in this order: `rulebook`, `law`, `house`, `eligible`, then the stages, then `seats`",
        "die Klauseln stehen in dieser Reihenfolge: `rulebook`, `law`, `house`, `eligible`, dann die Stufen, dann `seats`");
    pub(crate) const CLOSED: Message = ("arguments are separated by `,`, and each `(` is closed by a `)`",
        "Argumente werden durch `,` getrennt, und jede `(` wird durch eine `)` geschlossen");
    pub(crate) const FORMS_LISTED: Message = ("the forms are `sum(e, party)`, `larger(e, f)`, `less(e, f)`, `split(seats, votes, method)` and `grow(seats, votes, method, minima, cap)`",
        "die Formen sind `sum(e, party)`, `larger(e, f)`, `less(e, f)`, `split(seats, votes, method)` und `grow(seats, votes, method, minima, cap)`");
    pub(crate) const NUMBER_REMEDY: Message = ("a number is written in digits alone, as in `rulebook 1;`, `house 630;` or `5 per 100`",
        "eine Zahl wird nur mit Ziffern geschrieben, wie in `rulebook 1;`, `house 630;` oder `5 per 100`");
    pub(crate) const NAME_REMEDY: Message = ("a name has a letter first, and then letters, digits and `_`; it is no word of the language",
        "ein Name hat zuerst einen Buchstaben, dann Buchstaben, Ziffern und `_`; er ist kein Wort der Sprache");
    pub(crate) const END: Message = ("a clause ends with `;`", "eine Klausel endet mit `;`");
    pub(crate) const NUMBER_WORD: Message = ("a number", "eine Zahl");
    pub(crate) const TEXT_WORD: Message = ("a text in quotes",
        "ein Text in Anführungszeichen");
    pub(crate) const NAME_WORD: Message = ("a name", "ein Name");
    pub(crate) const LONG_BOOK: Sentence = (FaultCode::B02, "the rulebook has more than 65,536 bytes",
        "das Regelwerk hat mehr als 65.536 Bytes");
    pub(crate) const LONG_BOOK_REMEDY: Message = ("is it the right file? A rulebook has some 1,000 bytes; long comments can be cut",
        "ist es die richtige Datei? Ein Regelwerk hat etwa 1.000 Bytes; lange Kommentare lassen sich kürzen");
    pub(crate) const TOO_DEEP: Sentence = (FaultCode::B08, "this expression lies at level {level}, and a stage has at most {most} levels",
        "dieser Ausdruck liegt auf Ebene {level}, und eine Stufe hat höchstens {most} Ebenen");
    pub(crate) const TOO_MANY_PARTS: Sentence = (FaultCode::B08, "a stage has at most {most} expressions, each one inside another counted, and this is one more",
        "eine Stufe hat höchstens {most} Ausdrücke, jeder in einem anderen mitgezählt, und dieser ist einer mehr");
    pub(crate) const PARTS_REMEDY: Message = ("make stages of parts of the expression, above this stage: `stage part = ..;`, and write `part` here",
        "aus Teilen des Ausdrucks Stufen machen, über dieser Stufe: `stage part = ..;`, und hier `part` schreiben");
    pub(crate) const NO_ROOM: Sentence = (FaultCode::B07, "an expression is missing here, and its stage has no room for one more: it has at most {levels} levels and {expressions} expressions",
        "hier fehlt ein Ausdruck, und seine Stufe hat keinen Platz mehr dafür: sie hat höchstens {levels} Ebenen und {expressions} Ausdrücke");
    pub(crate) const TOO_MANY_STAGES: Sentence = (FaultCode::B09, "a rulebook has at most {most} stages, and this is one more",
        "ein Regelwerk hat höchstens {most} Stufen, und diese ist eine mehr");
    pub(crate) const STAGES_REMEDY: Message = ("write the expression of a stage that is named only once in the place of its name",
        "den Ausdruck einer Stufe, die nur einmal genannt wird, an die Stelle ihres Namens schreiben");
}

// Texts of words of other languages and of other books.
#[rattlefmt::skip]
pub(crate) mod meant {
    use sl_explain_texts::Message;

    pub(crate) const METHOD: Message = ("the method is called `{method}`",
        "das Verfahren heißt `{method}`");

    pub(crate) const NO_METHOD: Message = ("the language has no quota of Droop; largest remainders by Hare's quota are `hamilton`",
        "eine Droop-Quote gibt es nicht; größte Reste mit der Hare-Quote sind `hamilton`");
}

// Texts of the tests that a rulebook fails.
#[rattlefmt::skip]
pub(crate) mod tests {
    use sl_explain_texts::{FaultCode, Message, Sentence};

    pub(crate) const ONE_SEATS: Message = ("a single number of seats",
        "eine einzelne Zahl von Sitzen");
    pub(crate) const PARTY_SEATS: Message = ("seats for each party", "Sitze je Partei");
    pub(crate) const LAND_SEATS: Message = ("seats for each Land", "Sitze je Land");
    pub(crate) const LIST_SEATS: Message = ("seats for each list", "Sitze je Liste");
    pub(crate) const ONE_VOTES: Message = ("a single number of votes",
        "eine einzelne Zahl von Stimmen");
    pub(crate) const PARTY_VOTES: Message = ("votes for each party", "Stimmen je Partei");
    pub(crate) const LAND_VOTES: Message = ("votes (or people) for each Land",
        "Stimmen (oder Einwohner) je Land");
    pub(crate) const LIST_VOTES: Message = ("votes for each list", "Stimmen je Liste");
    pub(crate) const SWAPPED: Message = ("the first argument of `{form}` is the seats, the second the votes; here the first has {first}, the second {second}",
        "das erste Argument von `{form}` sind die Sitze, das zweite die Stimmen; hier hat das erste {first}, das zweite {second}");
    pub(crate) const SWAPPED_REMEDY: Message = ("exchange the two",
        "die beiden vertauschen");
    pub(crate) const SEATS_BY_VOTES: Message = ("`{form}` distributes a number of seats by votes; here the first argument has {first}, the second {second}",
        "`{form}` verteilt Sitze nach Stimmen; hier hat das erste Argument {first}, das zweite {second}");
    pub(crate) const SEATS_OF_LISTS: Message = ("these seats are already distributed among the lists: split by `sum(counted, party)` where they are made, or write `sum(.., party)` around the first argument",
        "diese Sitze sind schon auf die Listen verteilt: dort, wo sie entstehen, nach `sum(counted, party)` verteilen, oder das erste Argument in `sum(.., party)` setzen");
    pub(crate) const VOTES_OF_LISTS: Message = ("seats for each party or each Land are distributed among lists: by `counted` as the second argument",
        "Sitze je Partei oder je Land werden auf Listen verteilt: nach `counted` als zweitem Argument");
    pub(crate) const VOTES_OF_SOME: Message = ("votes come for each list, party or Land: `counted`, `sum(counted, party)` or `population`",
        "Stimmen gibt es je Liste, je Partei oder je Land: `counted`, `sum(counted, party)` oder `population`");
    pub(crate) const GROW_ONE: Message = ("`grow` begins with a house, a single number of seats: `sum(.., all)` makes one",
        "`grow` beginnt mit einem Haus, einer einzelnen Zahl von Sitzen: `sum(.., all)` macht eine daraus");
    pub(crate) const MINIMA: Message = ("the minima of `{form}` must be seats of the same shape as its votes; it distributes by {votes}, and the minima are {minima}",
        "die Mindestzahlen von `{form}` müssen Sitze in der Form seiner Stimmen sein; es verteilt nach {votes}, und die Mindestzahlen sind {minima}");
    pub(crate) const MINIMA_SUM: Message = ("write `sum(.., {axis})` around the minima",
        "die Mindestzahlen in `sum(.., {axis})` setzen");
    pub(crate) const MINIMA_REMEDY: Message = ("write minima such as `winners`, or `sum(winners, party)` where the votes are those of parties",
        "Mindestzahlen wie `winners` schreiben, oder `sum(winners, party)`, wenn die Stimmen die von Parteien sind");
    pub(crate) const NEEDS_SEATS: Message = ("the first argument is what is distributed: seats, such as `house`",
        "das erste Argument ist, was verteilt wird: Sitze, etwa `house`");
    pub(crate) const NEEDS_VOTES: Message = ("the second argument is by what they are distributed: votes or people, such as `counted`",
        "das zweite Argument ist, wonach verteilt wird: Stimmen oder Einwohner, etwa `counted`");
    pub(crate) const PREFER: Sentence = (FaultCode::B19, "`majority prefer` goes with `hamilton` alone, and this split is by `{method}`",
        "`majority prefer` gibt es nur bei `hamilton`, und diese Verteilung ist nach `{method}`");
    pub(crate) const PREFER_REMEDY: Message = ("write `hamilton`, or `majority refuse`, or omit the clause",
        "`hamilton` schreiben, oder `majority refuse`, oder die Angabe weglassen");
    pub(crate) const HAMILTON_MINIMA: Sentence = (FaultCode::B19, "a split by `hamilton` has no minima",
        "eine Verteilung nach `hamilton` hat keine Mindestzahlen");
    pub(crate) const HAMILTON_MINIMA_REMEDY: Message = ("omit `atleast ..`, or write another method, such as `webster`",
        "`atleast ..` weglassen, oder ein anderes Verfahren schreiben, etwa `webster`");
    pub(crate) const HAMILTON_GROWS: Sentence = (FaultCode::B19, "`grow` does not go with `hamilton`",
        "`grow` gibt es nicht mit `hamilton`");
    pub(crate) const HAMILTON_GROWS_REMEDY: Message = ("write a divisor method, such as `webster`",
        "ein Divisorverfahren schreiben, etwa `webster`");
    pub(crate) const NOT_FITTING: Message = ("the arguments of `{form}` do not fit",
        "die Argumente von `{form}` passen nicht zusammen");
    pub(crate) const MADE: Message = ("the stage `{stage}` stands in line {line}",
        "die Stufe `{stage}` steht in Zeile {line}");
    pub(crate) const TWO_SPLITS: Sentence = (FaultCode::B18, "the stage `{stage}` has more than one `split` or `grow`, and a stage may have one",
        "die Stufe `{stage}` hat mehr als ein `split` oder `grow`, und eine Stufe darf nur eines haben");
    pub(crate) const TWO_SPLITS_REMEDY: Message = ("make a stage of the inner one, above this stage, as in `stage parties = split(..);`, and write `parties` in its place",
        "aus dem inneren eine eigene Stufe machen, über dieser, etwa `stage parties = split(..);`, und an seiner Stelle `parties` schreiben");
    pub(crate) const SUM_ONE: Message = ("`sum` adds up the numbers of a column, and its argument is {argument}",
        "`sum` zählt die Zahlen einer Spalte zusammen, und sein Argument ist {argument}");
    pub(crate) const SUM_ONE_REMEDY: Message = ("remove `sum`, and write its argument alone",
        "`sum` weglassen, und sein Argument allein schreiben");
    pub(crate) const SUM_AXIS: Message = ("`sum(.., {axis})` adds up numbers of lists, and its argument has {argument}",
        "`sum(.., {axis})` zählt Zahlen von Listen zusammen, und sein Argument hat {argument}");
    pub(crate) const SUM_AXIS_REMEDY: Message = ("write `sum(.., all)` for the sum of all of them, or remove `sum`",
        "für die Summe über alle `sum(.., all)` schreiben, oder `sum` weglassen");
    pub(crate) const PAIR: Message = ("`{form}` takes two columns of one kind; the first has {first}, the second {second}",
        "`{form}` nimmt zwei Spalten derselben Art; die erste hat {first}, die zweite {second}");
    pub(crate) const PAIR_UNIT_REMEDY: Message = ("seats go with seats, and votes with votes",
        "Sitze gehören zu Sitzen, und Stimmen zu Stimmen");
    pub(crate) const PAIR_SUM_FIRST: Message = ("write `sum(.., {axis})` around the first argument, so that both have the same shape",
        "das erste Argument in `sum(.., {axis})` setzen, dann haben beide dieselbe Form");
    pub(crate) const PAIR_SUM_SECOND: Message = ("write `sum(.., {axis})` around the second argument, so that both have the same shape",
        "das zweite Argument in `sum(.., {axis})` setzen, dann haben beide dieselbe Form");
    pub(crate) const PAIR_ALL: Message = ("write `sum(.., all)` around each of them, so that both are a single number",
        "jedes der beiden in `sum(.., all)` setzen, dann sind beide eine einzelne Zahl");
    pub(crate) const TWICE: Sentence = (FaultCode::B14, "two stages have the name `{stage}`; the first one stands in line {line}",
        "zwei Stufen heißen `{stage}`; die erste steht in Zeile {line}");
    pub(crate) const TWICE_REMEDY: Message = ("give this stage another name, and write it where this one is meant further down",
        "dieser Stufe einen anderen Namen geben, und ihn auch weiter unten schreiben, wo sie gemeint ist");
    pub(crate) const ITSELF: Sentence = (FaultCode::B15, "the stage `{stage}` is named in its own expression",
        "die Stufe `{stage}` wird in ihrem eigenen Ausdruck genannt");
    pub(crate) const LATER: Sentence = (FaultCode::B15, "the stage `{stage}` is named before it is given: it stands further down, in line {line}",
        "die Stufe `{stage}` wird genannt, bevor sie angegeben ist: sie steht weiter unten, in Zeile {line}");
    pub(crate) const ITSELF_REMEDY: Message = ("an expression names columns of the returns, and stages above its own",
        "ein Ausdruck nennt Spalten der Wahlergebnisse, und Stufen über seiner eigenen");
    pub(crate) const LATER_REMEDY: Message = ("an expression names stages above its own alone: change their order",
        "ein Ausdruck nennt nur Stufen über seiner eigenen: die Reihenfolge ändern");
    pub(crate) const UNKNOWN: Sentence = (FaultCode::B15, "there is no stage and no column `{name}`",
        "es gibt keine Stufe und keine Spalte `{name}`");
    pub(crate) const UNKNOWN_BASE: Sentence = (FaultCode::B15, "the last clause names the stage `{stage}`, and there is none of that name",
        "die letzte Klausel nennt die Stufe `{stage}`, und es gibt keine dieses Namens");
    pub(crate) const EARLIER: Message = ("the stages above are {stages}",
        "die Stufen darüber sind {stages}");
    pub(crate) const NO_EARLIER: Message = ("no stage stands above",
        "darüber steht keine Stufe");
    pub(crate) const FACTS: Message = ("the columns of the returns are {columns}",
        "die Spalten der Wahlergebnisse sind {columns}");
    pub(crate) const LAST_CLAUSE_SEATS: Sentence = (FaultCode::B21, "the last clause needs a stage with seats for each list, and `{stage}` has {column}",
        "die letzte Klausel braucht eine Stufe mit Sitzen je Liste, und `{stage}` hat {column}");
    pub(crate) const NO_SEATS: Sentence = (FaultCode::B21, "the last clause needs a stage with seats for each list, and `{stage}` has none",
        "die letzte Klausel braucht eine Stufe mit Sitzen je Liste, und `{stage}` hat keine");
    pub(crate) const SEATS_FITTING: Message = ("stages that have seats for each list: {stages}",
        "Stufen, die Sitze je Liste haben: {stages}");
    pub(crate) const SEATS_SPLIT: Message = ("distribute these seats among the lists by one more stage, `stage lists = split({stage}, counted, webster);`, and name it: `seats lists ..`",
        "diese Sitze durch eine weitere Stufe auf die Listen verteilen, `stage lists = split({stage}, counted, webster);`, und sie nennen: `seats lists ..`");
    pub(crate) const SEATS_VOTES: Message = ("votes are no seats: distribute seats by votes, as in `stage lists = split(house, counted, webster);`, and name that stage: `seats lists ..`",
        "Stimmen sind keine Sitze: Sitze nach Stimmen verteilen, wie in `stage lists = split(house, counted, webster);`, und diese Stufe nennen: `seats lists ..`");
    pub(crate) const NO_VERSION: Sentence = (FaultCode::B11, "the language has the versions 1 and 2, and no version {version}",
        "die Sprache hat die Versionen 1 und 2, aber keine Version {version}");
    pub(crate) const VERSIONS: Message = ("write `rulebook 1;`, or `rulebook 2;` if the last clause has `vacate`",
        "`rulebook 1;` schreiben, oder `rulebook 2;`, wenn die letzte Klausel `vacate` hat");
    pub(crate) const VACATE: Sentence = (FaultCode::B11, "`vacate` came with version 2 of the language, and this book is written in version {version}",
        "`vacate` gibt es erst in Version 2 der Sprache, und dieses Regelwerk ist in Version {version} geschrieben");
    pub(crate) const VACATE_REMEDY: Message = ("write `rulebook 2;` in the first clause, or remove `vacate`",
        "in der ersten Klausel `rulebook 2;` schreiben, oder `vacate` weglassen");
    pub(crate) const HOUSE: Sentence = (FaultCode::B12, "a house has from 1 to {most} seats, not {seats}",
        "ein Haus hat 1 bis {most} Sitze, nicht {seats}");
    pub(crate) const HOUSE_REMEDY: Message = ("write the number of seats to be distributed, such as `house 630;`",
        "die Zahl der Sitze schreiben, die zu vergeben sind, etwa `house 630;`");
    pub(crate) const SHARE_ZERO: Sentence = (FaultCode::B13, "a threshold of {share} per {parts} keeps nobody out; the first number is at least 1",
        "eine Schwelle von {share} per {parts} hält niemanden ab; die erste Zahl ist mindestens 1");
    pub(crate) const SHARE_ZERO_REMEDY: Message = ("for a book without a threshold write `eligible all;`",
        "für ein Regelwerk ohne Schwelle `eligible all;` schreiben");
    pub(crate) const SHARE_MORE: Sentence = (FaultCode::B13, "a threshold of {share} per {parts} is more than all votes",
        "eine Schwelle von {share} per {parts} ist mehr als alle Stimmen");
    pub(crate) const SHARE_MORE_REMEDY: Message = ("the first number is at most the second: `5 per 100` is 5 percent",
        "die erste Zahl ist höchstens so groß wie die zweite: `5 per 100` sind 5 Prozent");
    pub(crate) const SHARE_PARTS: Sentence = (FaultCode::B13, "a threshold of {share} per {parts} is too fine: the second number is at most {most}",
        "eine Schwelle von {share} per {parts} hat zu kleine Teile: die zweite Zahl ist höchstens {most}");
    pub(crate) const SHARE_PARTS_REMEDY: Message = ("write the threshold in tenths of a percent: `45 per 1000` is 4.5 percent",
        "die Schwelle in Zehntelprozent schreiben: `45 per 1000` sind 4,5 Prozent");
    pub(crate) const CAP: Sentence = (FaultCode::B20, "the cap of a growth is from 1 to {most} seats, not {seats}",
        "die Obergrenze eines Wachstums (`grow`) ist 1 bis {most} Sitze, nicht {seats}");
    pub(crate) const CAP_REMEDY: Message = ("write the greatest house that may be looked for, such as 4000",
        "das größte Haus schreiben, das gesucht werden darf, etwa 4000");
}

// Texts of characters and words that are no tokens.
#[rattlefmt::skip]
pub(crate) mod tokens {
    use sl_explain_texts::{FaultCode, Message, Sentence};

    pub(crate) const NOT_CLOSED: Sentence = (FaultCode::B04, "a text in quotes begins here, and is not closed on its line",
        "hier beginnt ein Text in Anführungszeichen, der auf seiner Zeile nicht endet");
    pub(crate) const NOT_CLOSED_REMEDY: Message = ("close it with `\"` on the same line, as in `law \"My law\";`",
        "ihn auf derselben Zeile mit `\"` schließen, wie in `law \"Mein Gesetz\";`");
    pub(crate) const BIG_NUMBER: Sentence = (FaultCode::B05, "the number {number:shown} is too great: numbers end at 999,999,999",
        "die Zahl {number:shown} ist zu groß: Zahlen gehen bis 999.999.999");
    pub(crate) const BIG_NUMBER_REMEDY: Message = ("a house and a cap have at most 4000 seats, and `n per d` at most 1000 parts",
        "ein Haus und eine Obergrenze haben höchstens 4000 Sitze, und `n per d` höchstens 1000 Teile");
    pub(crate) const LONG_NAME: Sentence = (FaultCode::B06, "the word `{word:shown}` has {length} characters, and a word has at most {most}",
        "das Wort `{word:shown}` hat {length} Zeichen, und ein Wort hat höchstens {most}");
    pub(crate) const LONG_NAME_REMEDY: Message = ("shorten it, wherever the name stands",
        "den Namen überall kürzen");
    pub(crate) const UNEXPECTED: Sentence = (FaultCode::B03, "a rulebook has no `{character}` outside of comments and quotes",
        "ein Regelwerk hat kein `{character}` außerhalb von Kommentaren und Anführungszeichen");
    pub(crate) const NO_LETTER: Sentence = (FaultCode::B03, "the character `{character:shown}` may stand in comments alone",
        "das Zeichen `{character:shown}` darf nur in Kommentaren stehen");
    pub(crate) const NO_CHARACTER: Sentence = (FaultCode::B03, "a byte stands here that is no character of UTF-8: {byte}",
        "hier steht ein Byte, das in UTF-8 kein Zeichen ist: {byte}");
    pub(crate) const CONTROL: Sentence = (FaultCode::B03, "a control character stands here: the byte {byte}",
        "hier steht ein Steuerzeichen: das Byte {byte}");
    pub(crate) const INVISIBLE: Sentence = (FaultCode::B03, "a special blank stands here, which looks like a space or like nothing",
        "hier steht ein besonderer Leerraum, der wie ein Leerzeichen oder wie nichts aussieht");
    pub(crate) const RIGHT_FILE: Message = ("a rulebook begins with `rulebook 1;`: is it the right file?",
        "ein Regelwerk beginnt mit `rulebook 1;`: ist es die richtige Datei?");
    pub(crate) const PERCENT: Message = ("write 5 percent as `5 per 100`, and 4.5 percent as `45 per 1000`",
        "5 Prozent als `5 per 100` schreiben, und 4,5 Prozent als `45 per 1000`");
    pub(crate) const POINT: Message = ("numbers are whole: 4.5 percent is `45 per 1000`, and 1,000 is `1000`",
        "Zahlen sind ganz: 4,5 Prozent sind `45 per 1000`, und 1.000 ist `1000`");
    pub(crate) const HYPHEN: Message = ("a name has letters, digits and `_`: write `_` in place of `-`; the difference of two columns is `less(.., ..)`",
        "ein Name hat Buchstaben, Ziffern und `_`: `_` statt `-` schreiben; die Differenz zweier Spalten ist `less(.., ..)`");
    pub(crate) const COMMENT: Message = ("a comment begins with `#` and goes to the end of its line",
        "ein Kommentar beginnt mit `#` und geht bis zum Ende seiner Zeile");
    pub(crate) const ARITHMETIC: Message = ("there are no sums and products by marks: see `sum(.., all)`, `less(.., ..)`, `larger(.., ..)`; a comment begins with `#`",
        "Summen und Produkte gibt es nicht als Zeichen: siehe `sum(.., all)`, `less(.., ..)`, `larger(.., ..)`; ein Kommentar beginnt mit `#`");
    pub(crate) const QUOTES: Message = ("the name of the law stands in straight double quotes: `law \"My law\";`",
        "der Name des Gesetzes steht in geraden doppelten Anführungszeichen: `law \"Mein Gesetz\";`");
    pub(crate) const COMPARED: Message = ("thresholds are written in words: `valid at least 5 per 100`, `winners at least 3`",
        "Schwellen werden in Wörtern geschrieben: `valid at least 5 per 100`, `winners at least 3`");
    pub(crate) const COLON: Message = ("a clause ends with `;`, and a stage is `stage NAME = ..;`",
        "eine Klausel endet mit `;`, und eine Stufe ist `stage NAME = ..;`");
    pub(crate) const BRACKETS: Message = ("there are round parentheses alone, `(` and `)`",
        "es gibt nur runde Klammern, `(` und `)`");
    pub(crate) const UNDERSCORE: Message = ("a name begins with a letter",
        "ein Name beginnt mit einem Buchstaben");
    pub(crate) const AT_SIGN: Message = ("`@` stands before the name of a library's book in a command, and not in a rulebook",
        "`@` steht auf der Befehlszeile vor dem Namen eines Regelwerks der Bibliothek, und nicht in einem Regelwerk");
    pub(crate) const LETTER: Message = ("write letters from A to Z: `Thueringen` for `Thüringen`",
        "Buchstaben von A bis Z schreiben: `Thueringen` für `Thüringen`");
    pub(crate) const PLAIN: Message = ("delete it; names have letters from A to Z, digits and `_`, and the marks are `;`, `=`, `,`, `(` and `)`",
        "es löschen; Namen haben Buchstaben von A bis Z, Ziffern und `_`, und die Zeichen sind `;`, `=`, `,`, `(` und `)`");
    pub(crate) const ENCODING: Message = ("save the file in UTF-8, and write letters from A to Z outside of comments",
        "die Datei in UTF-8 speichern, und außerhalb von Kommentaren Buchstaben von A bis Z schreiben");
    pub(crate) const BLANK: Message = ("delete it, and type a space or a new line in its place",
        "ihn löschen, und an seiner Stelle ein Leerzeichen oder einen Zeilenwechsel tippen");
    pub(crate) const IN_TEXT: Sentence = (FaultCode::B04, "the character `{character:shown}` may not stand in a text in quotes",
        "das Zeichen `{character:shown}` darf nicht in einem Text in Anführungszeichen stehen");
    pub(crate) const BYTE_IN_TEXT: Sentence = (FaultCode::B04, "a text in quotes has printable characters of ASCII, and not the byte {byte}",
        "ein Text in Anführungszeichen hat druckbare Zeichen von ASCII, und nicht das Byte {byte}");
    pub(crate) const TEXT_LETTER: Message = ("write letters from A to Z: `fuer` for `für`; other letters may stand in comments, after `#`",
        "Buchstaben von A bis Z schreiben: `fuer` für `für`; andere Buchstaben dürfen in Kommentaren stehen, hinter `#`");
    pub(crate) const TEXT_PLAIN: Message = ("write a space or letters from A to Z in its place",
        "an seiner Stelle ein Leerzeichen oder Buchstaben von A bis Z schreiben");
}

// Texts of names of statutes and stages that do not exist.
#[rattlefmt::skip]
pub(crate) mod unknown {
    use sl_explain_texts::{FaultCode, Message, Sentence};

    pub(crate) const UNKNOWN_STATUTE: Sentence = (FaultCode::B01, "the library has no rulebook `{name:shown}`",
        "die Bibliothek hat kein Regelwerk `{name:shown}`");
    pub(crate) const LIBRARY: Message = ("it has {statutes}; a command that reads a rulebook takes them with `@`, as in `seatlaw count @2023-order returns.csv`, and `law` without it",
        "sie hat {statutes}; ein Befehl, der ein Regelwerk liest, nimmt sie mit `@`, wie in `seatlaw count @2023-order returns.csv`, und `law` ohne es");
    pub(crate) const NAME_ALONE: Message = ("the name of that rulebook is `{name}`",
        "der Name dieses Regelwerks ist `{name}`");
    pub(crate) const ELECTION: Message = ("the election of {year} was held under the rulebook `{statute}`",
        "die Wahl von {year} folgte dem Regelwerk `{statute}`");
    pub(crate) const NO_ELECTION: Message = ("the statute of the election of {year} is not in the library",
        "das Gesetz der Wahl von {year} ist nicht in der Bibliothek");
    pub(crate) const NO_STATUTE: Message = ("the statute of 2020, under which the election of 2021 was held, is not in the library",
        "das Gesetz von 2020, dem die Wahl von 2021 folgte, ist nicht in der Bibliothek");
    pub(crate) const NO_STAGE: Sentence = (FaultCode::B22, "the rulebook has no stage `{name:shown}`",
        "das Regelwerk hat keine Stufe `{name:shown}`");
    pub(crate) const ITS_STAGES: Message = ("its stages are {stages}",
        "das Regelwerk hat die Stufen {stages}");
    pub(crate) const NO_STAGES: Message = ("it has no stages at all: `count` shows the seats",
        "es hat gar keine Stufen: `count` zeigt die Sitze");
    pub(crate) const SEATS_NO_STAGE: Message = ("`seats` is the last clause and no stage: `count` shows what it yields",
        "`seats` ist die letzte Klausel und keine Stufe: `count` zeigt, was sie ergibt");
    pub(crate) const COLUMN: Message = ("`{column}` is a column of the returns; a stage that shows it is `stage shown = {column};`",
        "`{column}` ist eine Spalte der Wahlergebnisse; eine Stufe, die sie zeigt, ist `stage shown = {column};`");
}

// Texts of files that are something else than a rulebook.
#[rattlefmt::skip]
pub(crate) mod whole {
    use sl_explain_texts::Message;

    pub(crate) const EMPTY_FILE: Message = ("the file is empty", "die Datei ist leer");
    pub(crate) const EMPTY_FILE_REMEDY: Message = ("a rulebook begins with `rulebook 1;`; `seatlaw law 2023-order` shows a whole one",
        "ein Regelwerk beginnt mit `rulebook 1;`; `seatlaw law 2023-order` zeigt ein ganzes");
    pub(crate) const CODE_FILE: Message = ("this is a code file, and no rulebook",
        "das ist eine Codedatei und kein Regelwerk");
    pub(crate) const CODE_FILE_REMEDY: Message = ("a code file is counted by `run`: `seatlaw run CODE RETURNS`",
        "eine Codedatei wird mit `run` gezählt: `seatlaw run CODE RETURNS`");
    pub(crate) const RETURNS_FILE: Message = ("these are returns, and no rulebook",
        "das sind Wahlergebnisse und kein Regelwerk");
    pub(crate) const RETURNS_FILE_REMEDY: Message = ("`totals` and `compare` take RETURNS, then BOOK, as in `seatlaw totals returns.csv @2023-order`; the other commands BOOK, then RETURNS, as in `seatlaw count @2023-order returns.csv`; two elections are compared by `seatlaw report --short --before earlier.txt @2023-order returns.csv`",
        "`totals` und `compare` nehmen RETURNS, dann BOOK, wie in `seatlaw totals returns.csv @2023-order`; die anderen Befehle BOOK, dann RETURNS, wie in `seatlaw count @2023-order returns.csv`; zwei Wahlen vergleicht `seatlaw report --short --before frueher.txt @2023-order returns.csv`");
    pub(crate) const PACKED_FILE: Message = ("this file is compressed, such as a workbook, a document of a word processor or an archive, and no text",
        "diese Datei ist komprimiert, etwa eine Arbeitsmappe, ein Dokument einer Textverarbeitung oder ein Archiv, und kein Text");
    pub(crate) const PACKED_FILE_REMEDY: Message = ("unpack an archive first; save a document as plain text, in UTF-8",
        "ein Archiv zuerst entpacken; ein Dokument als reinen Text speichern, in UTF-8");
    pub(crate) const UTF16_FILE: Message = ("the file is written in UTF-16",
        "die Datei ist in UTF-16 geschrieben");
    pub(crate) const UTF16_FILE_REMEDY: Message = ("save it in UTF-8, without a byte order mark",
        "in UTF-8 speichern, ohne Bytereihenfolge-Markierung (BOM)");
    pub(crate) const BYTE_ORDER_MARK: Message = ("the file begins with a byte order mark, which editors do not show",
        "die Datei beginnt mit einer Bytereihenfolge-Markierung (BOM), die Editoren nicht zeigen");
    pub(crate) const BYTE_ORDER_MARK_REMEDY: Message = ("save it as \"UTF-8\", and not as \"UTF-8 with BOM\"",
        "als \"UTF-8\" speichern, und nicht als \"UTF-8 mit BOM\"");
}
