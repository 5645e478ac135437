//! All texts of this crate, in both languages, by topic: a new language is one more field of each. A name in braces stands for a value.

// Faults of code files, and of their runs.
#[rattlefmt::skip]
pub(crate) mod code_files {
    use crate::table::Entry;
    use sl_explain_texts::{FaultCode, Message};

    // What to do about a file that was changed on its way.
    const AGAIN: Message = ("Write the file again from its rulebook: `seatlaw code book.law book.slc`. A file that `code` has written and nobody has changed is never refused.",
        "Die Datei aus ihrem Regelwerk neu schreiben: `seatlaw code book.law book.slc`. Eine Datei, die `code` schrieb und niemand änderte, wird nie abgelehnt.");
    pub static C01: Entry = Entry { code: FaultCode::C01,
        title: ("no code file", "keine Codedatei"),
        meaning: ("A code file begins with the letters SLC.",
            "Eine Codedatei beginnt mit den Buchstaben SLC."),
        example: "refused code file 1 0",
        remedy: ("Count a rulebook by `count`. The order of the words of `run` is CODE, then RETURNS.",
            "Ein Regelwerk mit `count` zählen. Die Reihenfolge der Wörter von `run` ist CODE, dann RETURNS.") };
    pub static C02: Entry = Entry { code: FaultCode::C02,
        title: ("unknown version of the format", "unbekannte Version des Formats"),
        meaning: ("The version of the format is 1.", "Die Version des Formats ist 1."),
        example: "refused code file 2 3",
        remedy: AGAIN };
    pub static C03: Entry = Entry { code: FaultCode::C03,
        title: ("byte without a meaning", "Byte ohne Bedeutung"),
        meaning: ("A byte of the code file has no meaning at its place.",
            "Ein Byte der Codedatei hat an seiner Stelle keine Bedeutung."),
        example: "refused code file 3 16",
        remedy: AGAIN };
    pub static C04: Entry = Entry { code: FaultCode::C04,
        title: ("code file cut short", "abgeschnittene Codedatei"),
        meaning: ("The code file ends where a byte is needed.",
            "Die Codedatei endet, wo ein Byte gebraucht wird."),
        example: "refused code file 4 120",
        remedy: AGAIN };
    pub static C05: Entry = Entry { code: FaultCode::C05,
        title: ("bytes after the code", "Bytes hinter dem Code"),
        meaning: ("The code file goes on after the end of the code.",
            "Die Codedatei geht hinter dem Ende des Codes weiter."),
        example: "refused code file 5 420",
        remedy: AGAIN };
    pub static C06: Entry = Entry { code: FaultCode::C06,
        title: ("too many stages, slots or instructions",
            "zu viele Stufen, Spalten oder Befehle"),
        meaning: ("A code has at most 32 stages, 200 slots and 200,000 instructions.",
            "Ein Code hat höchstens 32 Stufen, 200 Spalten und 200.000 Befehle."),
        example: "refused code file 6 4",
        remedy: AGAIN };
    pub static C07: Entry = Entry { code: FaultCode::C07,
        title: ("jump without a declaration", "Sprung ohne Erklärung"),
        meaning: ("An instruction jumps to a place at which no declaration says what is known there.",
            "Ein Befehl springt an eine Stelle, an der keine Erklärung sagt, was dort bekannt ist."),
        example: "refused code verify 1 12",
        remedy: AGAIN };
    pub static C08: Entry = Entry { code: FaultCode::C08,
        title: ("register that does not exist", "Register, das es nicht gibt"),
        meaning: ("The machine has 16 registers, and an instruction names another one.",
            "Die Maschine hat 16 Register, und ein Befehl nennt ein anderes."),
        example: "refused code verify 2 12",
        remedy: AGAIN };
    pub static C09: Entry = Entry { code: FaultCode::C09,
        title: ("register or cursor that is not known",
            "Register oder Zeiger, der nicht bekannt ist"),
        meaning: ("An instruction needs a register that is not 0, or a cursor that is set, and that is not known at its place.",
            "Ein Befehl braucht ein Register, das nicht 0 ist, oder einen gesetzten Zeiger, und das ist an seiner Stelle nicht bekannt."),
        example: "refused code verify 3 12",
        remedy: AGAIN };
    pub static C10: Entry = Entry { code: FaultCode::C10,
        title: ("column or stage that does not exist", "Spalte oder Stufe, die es nicht gibt"),
        meaning: ("An instruction names a column or a stage that does not exist, or a column of another shape.",
            "Ein Befehl nennt eine Spalte oder Stufe, die es nicht gibt, oder eine Spalte anderer Form."),
        example: "refused code verify 4 12",
        remedy: AGAIN };
    pub static C11: Entry = Entry { code: FaultCode::C11,
        title: ("wrong priority table", "falsche Rangtabelle"),
        meaning: ("An instruction needs another priority table than the one at its place.",
            "Ein Befehl braucht eine andere Rangtabelle als die an seiner Stelle."),
        example: "refused code verify 5 12",
        remedy: AGAIN };
    pub static C12: Entry = Entry { code: FaultCode::C12,
        title: ("paths that do not agree", "Wege, die nicht übereinstimmen"),
        meaning: ("Two paths meet at an instruction with different knowledge, or no path reaches it.",
            "Bei einem Befehl treffen sich zwei Wege mit ungleichem Wissen, oder kein Weg führt hin."),
        example: "refused code verify 6 12",
        remedy: AGAIN };
    pub static C13: Entry = Entry { code: FaultCode::C13,
        title: ("code that runs off its end", "Code, der über sein Ende hinausläuft"),
        meaning: ("The last instruction goes on, and nothing stands after it.",
            "Der letzte Befehl geht weiter, und hinter ihm steht nichts."),
        example: "refused code verify 7 12",
        remedy: AGAIN };
    pub static C14: Entry = Entry { code: FaultCode::C14,
        title: ("code file too long", "zu lange Codedatei"),
        meaning: ("A code file has at most 4,194,304 bytes.",
            "Eine Codedatei hat höchstens 4.194.304 Bytes."),
        example: "refused code toolong",
        remedy: ("Check whether it is the right file, or write it again from its rulebook: `seatlaw code book.law book.slc`.",
            "Prüfen, ob es die richtige Datei ist, oder sie aus ihrem Regelwerk neu schreiben: `seatlaw code book.law book.slc`.") };
    pub static C15: Entry = Entry { code: FaultCode::C15,
        title: ("run of too many steps", "Lauf mit zu vielen Schritten"),
        meaning: ("The run of the code file takes more steps than that of any rulebook, and was stopped.",
            "Der Lauf der Codedatei braucht mehr Schritte als der jedes Regelwerks und wurde abgebrochen."),
        example: "out of budget",
        remedy: ("Write the file from a rulebook: `seatlaw code book.law book.slc`.",
            "Die Datei aus einem Regelwerk schreiben: `seatlaw code book.law book.slc`.") };
}

// Faults of the tokens and of the grammar of a rulebook, its length, and names on the command line.
#[rattlefmt::skip]
pub(crate) mod grammar {
    use crate::table::Entry;
    use sl_explain_texts::{FaultCode, Message};

    pub static B01: Entry = Entry { code: FaultCode::B01,
        title: ("unknown statute", "unbekanntes Gesetz"),
        meaning: ("The library has no statute of the name after `@`, or after the command `law`.",
            "Die Bibliothek hat kein Gesetz mit dem Namen hinter `@` oder hinter dem Befehl `law`."),
        example: "seatlaw count @2021 returns.csv",
        remedy: ("Take one of the names that `seatlaw help law` lists. A rulebook of your own is named by its path, without `@`.",
            "Einen der Namen nehmen, die `seatlaw help law` nennt. Ein eigenes Regelwerk wird mit seinem Pfad genannt, ohne `@`.") };
    pub static B02: Entry = Entry { code: FaultCode::B02,
        title: ("rulebook too long", "zu langes Regelwerk"),
        meaning: ("A rulebook has at most 65,536 bytes.",
            "Ein Regelwerk hat höchstens 65.536 Bytes."),
        example: "refused book toolong",
        remedy: ("Check whether it is the right file: a rulebook has some 1,000 bytes. Shorten long comments.",
            "Prüfen, ob es die richtige Datei ist: Ein Regelwerk hat etwa 1.000 Bytes. Lange Kommentare kürzen.") };
    pub static B03: Entry = Entry { code: FaultCode::B03,
        title: ("character that begins no token", "Zeichen, mit dem kein Wort beginnt"),
        meaning: ("Outside of comments and texts in quotes, a rulebook has words of letters from A to Z, digits and `_`, whole numbers, and the marks `;`, `=`, `,`, `(` and `)`.",
            "Außerhalb von Kommentaren und Texten in Anführungszeichen hat ein Regelwerk Wörter aus Buchstaben von A bis Z, Ziffern und `_`, ganze Zahlen, und die Zeichen `;`, `=`, `,`, `(` und `)`."),
        example: "stage Länder = split(upper, counted, webster);",
        remedy: ("Write letters from A to Z, straight quotes, and `_` in place of a hyphen. At the beginning of a file it is mostly a byte order mark: save the file in UTF-8 without one.",
            "Buchstaben von A bis Z schreiben, gerade Anführungszeichen, und `_` statt eines Bindestrichs. Am Anfang einer Datei ist es meist eine Bytereihenfolge-Markierung (BOM): die Datei in UTF-8 ohne sie speichern.") };
    pub static B04: Entry = Entry { code: FaultCode::B04,
        title: ("text in quotes that is not closed",
            "Text in Anführungszeichen, der nicht endet"),
        meaning: ("A text in straight double quotes ends on its line, and has printable characters of ASCII alone.",
            "Ein Text in geraden doppelten Anführungszeichen endet auf seiner Zeile, und hat nur druckbare Zeichen von ASCII."),
        example: "law \"Wahlgesetz für 2023\";",
        remedy: ("Close the text on its line, and write letters from A to Z: `fuer` for `für`.",
            "Den Text auf seiner Zeile schließen, und Buchstaben von A bis Z schreiben: `fuer` für `für`.") };
    pub static B05: Entry = Entry { code: FaultCode::B05,
        title: ("number too great", "zu große Zahl"),
        meaning: ("A number in a rulebook is at most 999,999,999.",
            "Eine Zahl in einem Regelwerk ist höchstens 999.999.999."),
        example: "house 1000000000;",
        remedy: ("A house and a cap have at most 4000 seats, and `n per d` has at most 1000 parts.",
            "Ein Haus und eine Obergrenze haben höchstens 4000 Sitze, und `n per d` hat höchstens 1000 Teile.") };
    pub static B06: Entry = Entry { code: FaultCode::B06,
        title: ("word too long", "zu langes Wort"),
        meaning: ("A word has at most 12 characters.", "Ein Wort hat höchstens 12 Zeichen."),
        example: "stage distribution1 = split(pool, sum(counted, party), webster);",
        remedy: ("Shorten the name, wherever it stands.",
            "Den Namen kürzen, überall wo er steht.") };
    pub static B07: Entry = Entry { code: FaultCode::B07,
        title: ("token that does not belong there, or that is missing",
            "Wort oder Zeichen, das dort nicht stehen kann oder fehlt"),
        meaning: ("No rulebook goes on like this: what stands here cannot follow what stands before it, or the file ends before the last clause is complete.",
            "So geht kein Regelwerk weiter: Was hier steht, kann auf das Vorige nicht folgen, oder die Datei endet, bevor die letzte Klausel vollständig ist."),
        example: "house 630 eligible all;",
        remedy: ("Look at what stands before it: mostly a `;` is missing there, or a keyword is misspelt. The explanation lists what may stand here.",
            "Ansehen, was davor steht: Meist fehlt dort ein `;`, oder ein Schlüsselwort ist verschrieben. Die Erklärung nennt, was hier stehen darf.") };
    pub static B08: Entry = Entry { code: FaultCode::B08,
        title: ("expression with too many levels or parts",
            "Ausdruck mit zu vielen Ebenen oder Teilen"),
        meaning: ("The expression of a stage has at most 16 levels, and at most 64 expressions, each one inside another counted.",
            "Der Ausdruck einer Stufe hat höchstens 16 Ebenen, und höchstens 64 Ausdrücke, jeder in einem anderen mitgezählt."),
        example: "stage most = larger(a, larger(b, larger(c, larger(d, ..))));",
        remedy: ("Make stages of parts of the expression, above its stage, and write their names in place of the parts.",
            "Aus Teilen des Ausdrucks Stufen machen, über seiner Stufe, und ihre Namen an die Stelle der Teile schreiben.") };
    pub static B09: Entry = Entry { code: FaultCode::B09,
        title: ("too many stages", "zu viele Stufen"),
        meaning: ("A rulebook has at most 32 stages.", "Ein Regelwerk hat höchstens 32 Stufen."),
        example: "stage s33 = s32;",
        remedy: ("Write the expression of a stage that is named only once in the place of its name.",
            "Den Ausdruck einer Stufe, die nur einmal genannt wird, an die Stelle ihres Namens schreiben.") };
    pub static B10: Entry = Entry { code: FaultCode::B10,
        title: ("something after the last clause", "etwas hinter der letzten Klausel"),
        meaning: ("A rulebook ends with the clause `seats ..;`. Only blanks and comments may follow.",
            "Ein Regelwerk endet mit der Klausel `seats ..;`. Danach darf nur noch Leerraum und Kommentar stehen."),
        example: "seats lower cover; stage more = counted;",
        remedy: ("Move stages above the last clause, and put a second rulebook into a file of its own.",
            "Stufen über die letzte Klausel setzen, und ein zweites Regelwerk in eine eigene Datei.") };
    pub static B22: Entry = Entry { code: FaultCode::B22,
        title: ("unknown stage", "unbekannte Stufe"),
        meaning: ("The rulebook has no stage of the name that the command `stage` was given.",
            "Das Regelwerk hat keine Stufe mit dem Namen, der dem Befehl `stage` gegeben wurde."),
        example: "seatlaw stage @2023-order returns.csv uper",
        remedy: ("Take one of the names after `stage` in the rulebook: `seatlaw law 2023-order` writes one of the library.",
            "Einen der Namen hinter `stage` im Regelwerk nehmen: `seatlaw law 2023-order` schreibt eines der Bibliothek.") };
}

// Legal faults.
#[rattlefmt::skip]
pub(crate) mod legal {
    use crate::table::Entry;
    use sl_explain_texts::{FaultCode, Message};

    pub static L01: Entry = Entry { code: FaultCode::L01,
        title: ("too many seats in a scope", "zu viele Sitze in einem Bereich"),
        meaning: ("A stage would distribute more than 4000 seats in one scope.",
            "Eine Stufe würde in einem Bereich mehr als 4000 Sitze verteilen."),
        example: "fault upper all limit",
        remedy: ("In a rulebook of your own, distribute fewer seats there: sums of `larger` columns can be so great. No statute of the library ends so.",
            "In einem eigenen Regelwerk dort weniger Sitze verteilen: Summen von `larger`-Spalten können so groß sein. Kein Gesetz der Bibliothek endet so.") };
    pub static L02: Entry = Entry { code: FaultCode::L02,
        title: ("minima greater than the seats", "Mindestzahlen größer als die Sitze"),
        meaning: ("The minima (`atleast`) of a scope sum to more than its seats.",
            "Die Mindestzahlen (`atleast`) eines Bereichs ergeben mehr als seine Sitze."),
        example: "fault lower party Reds short",
        remedy: ("Compare the number of winners with the official list. In a rulebook of your own, distribute more seats there, or write `grow` in place of `split`.",
            "Die Zahl der Wahlkreissieger mit der amtlichen Liste vergleichen. In einem eigenen Regelwerk dort mehr Sitze verteilen, oder `grow` statt `split` schreiben.") };
    pub static L03: Entry = Entry { code: FaultCode::L03,
        title: ("seats without votes", "Sitze ohne Stimmen"),
        meaning: ("A scope has seats to distribute, and no entry that takes part in it has votes.",
            "Ein Bereich hat Sitze zu vergeben, und niemand, der in ihm teilnimmt, hat Stimmen."),
        example: "fault first land South nolist",
        remedy: ("Check whether lists of that Land or party are missing or have no counted votes, and whether their parties meet `eligible`.",
            "Prüfen, ob Listen dieses Landes oder dieser Partei fehlen oder keine gezählten Stimmen haben, und ob ihre Parteien `eligible` erfüllen.") };
    pub static L04: Entry = Entry { code: FaultCode::L04,
        title: ("tie", "Gleichstand"),
        meaning: ("More entries have equal claims than there are seats for them, and the lots of the returns do not decide among them.",
            "Mehr Einträge haben gleiche Ansprüche, als es für sie Sitze gibt, und die Lose der Wahlergebnisse entscheiden nicht zwischen ihnen."),
        example: "fault council all tie 2 Town/Reds Town/Blues Town/Greens",
        remedy: ("Have the lot drawn by the person the statute designates. Write a `lot` record for each of the tied entries into the returns, the first drawn at the top, and count again. The message after the count names the records.",
            "Das Los ziehen lassen, wie das Gesetz es bestimmt. Für jeden der gleichen Einträge einen `lot`-Datensatz in die Wahlergebnisse schreiben, der zuerst Gezogene oben, und noch einmal zählen. Die Meldung nach dem Zählen nennt die Datensätze.") };
    pub static L05: Entry = Entry { code: FaultCode::L05,
        title: ("majority of votes without a majority of seats",
            "Mehrheit der Stimmen ohne Mehrheit der Sitze"),
        meaning: ("An entry with more than half of the votes of a scope would get no more than half of its seats, and the rulebook says `majority refuse`.",
            "Wer mehr als die Hälfte der Stimmen eines Bereichs hat, erhielte nicht mehr als die Hälfte seiner Sitze, und das Regelwerk sagt `majority refuse`."),
        example: "fault upper all majority",
        remedy: ("Correct returns cannot change this. The statutes from 2008 on give the party further seats, up to more than half (Mehrheitsklausel), and a rulebook cannot say so. Without `majority refuse` it shows the seats before that; add the further ones by hand.",
            "Richtige Wahlergebnisse können daran nichts ändern. Die Gesetze seit 2008 geben der Partei weitere Sitze, bis es mehr als die Hälfte sind (Mehrheitsklausel), und ein Regelwerk kann das nicht sagen. Ohne `majority refuse` zeigt es die Sitze davor; die weiteren zählt man von Hand dazu.") };
    pub static L06: Entry = Entry { code: FaultCode::L06,
        title: ("growth that reaches its cap", "Wachstum, das seine Obergrenze erreicht"),
        meaning: ("No house up to the cap of a growth gives every entry its minimum.",
            "Kein Haus bis zur Obergrenze eines Wachstums gibt allen ihre Mindestzahl."),
        example: "fault upper all cap",
        remedy: ("Look for a party with many winners and few votes: mostly a number is wrong. In a rulebook of your own, raise the cap, up to 4000.",
            "Nach einer Partei mit vielen Wahlkreissiegern und wenigen Stimmen suchen: Meist ist eine Zahl falsch. In einem eigenen Regelwerk die Obergrenze erhöhen, bis 4000.") };
}

// What is said of a code, as a text.
#[rattlefmt::skip]
pub(crate) mod page {
    use sl_explain_texts::Message;

    pub(crate) const PAGE: Message = ("{code}: {title}\n\n{meaning}\n\nExample:\n  {example}\n\nWhat to do:\n  {remedy}\n",
        "{code}: {title}\n\n{meaning}\n\nBeispiel:\n  {example}\n\nWas zu tun ist:\n  {remedy}\n");
}

// Faults of returns.
#[rattlefmt::skip]
pub(crate) mod returns {
    use crate::table::Entry;
    use sl_explain_texts::{FaultCode, Message};

    pub static R01: Entry = Entry { code: FaultCode::R01,
        title: ("wrong header", "falsche Kopfzeile"),
        meaning: ("The first record is exactly `kind,land,party,a,b,c`, or `kind2,land,party,a,b,c`.",
            "Der erste Datensatz ist genau `kind,land,party,a,b,c`, oder `kind2,land,party,a,b,c`."),
        example: "Kind;Land;Party;A;B;C",
        remedy: ("Separate the cells by commas, and write the header as the first line, in small letters.",
            "Die Zellen durch Kommas trennen, und die Kopfzeile als erste Zeile schreiben, in kleinen Buchstaben.") };
    pub static R02: Entry = Entry { code: FaultCode::R02,
        title: ("cells that do not fit the kind of record",
            "Zellen, die nicht zur Art des Datensatzes passen"),
        meaning: ("A record has six cells. Its kind says which of them are filled and which are empty (docs/returns.md, section 1).",
            "Ein Datensatz hat sechs Zellen. Seine Art sagt, welche davon gefüllt und welche leer sind (docs/returns.md, Abschnitt 1)."),
        example: "land,Y,,1,",
        remedy: ("Count the commas: each record has five. Compare the record with the table of kinds.",
            "Die Kommas zählen: Jeder Datensatz hat fünf. Den Datensatz mit der Tabelle der Arten vergleichen.") };
    pub static R03: Entry = Entry { code: FaultCode::R03,
        title: ("unknown kind of record", "unbekannte Art von Datensatz"),
        meaning: ("The first cell is `house`, `land`, `party`, `list`, `win` or `lot`.",
            "Die erste Zelle ist `house`, `land`, `party`, `list`, `win` oder `lot`."),
        example: "seat,X,,1000,,",
        remedy: ("Correct the word; delete rows that have commas alone.",
            "Das Wort berichtigen; Zeilen löschen, die nur Kommas haben.") };
    pub static R04: Entry = Entry { code: FaultCode::R04,
        title: ("wrong name", "falscher Name"),
        meaning: ("A name has from 1 to 12 characters: letters from A to Z and a to z, digits, `_` and `-`.",
            "Ein Name hat 1 bis 12 Zeichen: Buchstaben von A bis Z und a bis z, Ziffern, `_` und `-`."),
        example: "land,Baden-Württemberg,,11000000,,",
        remedy: ("Take a short name, such as `BW`. Full names go into a file of their own (`--names`).",
            "Einen kurzen Namen nehmen, etwa `BW`. Volle Namen kommen in eine eigene Datei (`--names`).") };
    pub static R05: Entry = Entry { code: FaultCode::R05,
        title: ("wrong number", "falsche Zahl"),
        meaning: ("A number is one to twelve digits, without separators, decimals and blanks.",
            "Eine Zahl sind ein bis zwölf Ziffern, ohne Trennzeichen, Nachkommastellen und Leerzeichen."),
        example: "list,X,A,1.000,900,",
        remedy: ("Write 1000, and neither 1.000 nor 1,000.",
            "1000 schreiben, und weder 1.000 noch 1,000.") };
    pub static R06: Entry = Entry { code: FaultCode::R06,
        title: ("number out of range", "Zahl außerhalb der Grenzen"),
        meaning: ("A number is greater or smaller than it may be (docs/limits.md), or a winner has more first votes than there are.",
            "Eine Zahl ist größer oder kleiner, als sie sein darf (docs/limits.md), oder ein Wahlkreissieger hat mehr Erststimmen, als es gibt."),
        example: "house,,,0,,",
        remedy: ("Look for exchanged columns, and for a digit too many.",
            "Nach vertauschten Spalten suchen, und nach einer Ziffer zu viel.") };
    pub static R07: Entry = Entry { code: FaultCode::R07,
        title: ("name that is not declared", "Name, der nicht angegeben ist"),
        meaning: ("A record names a Land, a party or a constituency of which no record above it tells.",
            "Ein Datensatz nennt ein Land, eine Partei oder einen Wahlkreis, von dem kein Datensatz darüber spricht."),
        example: "list,Y,A,5,5,",
        remedy: ("Check the spelling, and put the records that declare a name above those that use it.",
            "Die Schreibweise prüfen, und die Datensätze, die einen Namen angeben, über die setzen, die ihn nennen.") };
    pub static R08: Entry = Entry { code: FaultCode::R08,
        title: ("something that is given twice", "etwas, das zweimal angegeben ist"),
        meaning: ("A name, the house, a list or a lot is given a second time.",
            "Ein Name, das Haus, eine Liste oder ein Los ist ein zweites Mal angegeben."),
        example: "land,X,,2000,,",
        remedy: ("Delete one of the two records; a row of sums may have been copied.",
            "Einen der beiden Datensätze löschen; vielleicht wurde eine Summenzeile mitkopiert.") };
    pub static R09: Entry = Entry { code: FaultCode::R09,
        title: ("more counted votes than valid votes", "mehr gezählte als gültige Stimmen"),
        meaning: ("Of the valid votes of a list, column a, at most all are counted, column b.",
            "Von den gültigen Stimmen einer Liste, Spalte a, werden höchstens alle gezählt, Spalte b."),
        example: "list,X,A,5,6,",
        remedy: ("Exchange the columns a and b, or correct them.",
            "Die Spalten a und b vertauschen, oder sie berichtigen.") };
    pub static R10: Entry = Entry { code: FaultCode::R10,
        title: ("too many records of a kind", "zu viele Datensätze einer Art"),
        meaning: ("Returns have at most 64 Länder, 256 parties, 2000 winners and 4000 lots.",
            "Wahlergebnisse haben höchstens 64 Länder, 256 Parteien, 2000 Wahlkreissieger und 4000 Lose."),
        example: "land,L65,,1000,,",
        remedy: ("Check whether the file has records twice, or those of several elections.",
            "Prüfen, ob die Datei Datensätze doppelt hat, oder die mehrerer Wahlen.") };
    pub static R11: Entry = Entry { code: FaultCode::R11,
        title: ("no Land", "kein Land"),
        meaning: ("The returns have no `land` record.",
            "Die Wahlergebnisse haben keinen `land`-Datensatz."),
        example: "kind,land,party,a,b,c",
        remedy: ("Give at least one Land, as `land,NAME,,PEOPLE,,`.",
            "Mindestens ein Land angeben, wie `land,NAME,,EINWOHNER,,`.") };
    pub static R12: Entry = Entry { code: FaultCode::R12,
        title: ("returns too long", "zu lange Wahlergebnisse"),
        meaning: ("Returns have at most 4,194,304 bytes.",
            "Wahlergebnisse haben höchstens 4.194.304 Bytes."),
        example: "refused returns toolong",
        remedy: ("Check whether it is the right file: an election of the Bundestag has some 1,000 records.",
            "Prüfen, ob es die richtige Datei ist: Eine Bundestagswahl hat rund 1.000 Datensätze.") };
}

// Faults of rulebooks that are not well formed.
#[rattlefmt::skip]
pub(crate) mod tests {
    use crate::table::Entry;
    use sl_explain_texts::{FaultCode, Message};

    pub static B11: Entry = Entry { code: FaultCode::B11,
        title: ("unknown version of the language", "unbekannte Version der Sprache"),
        meaning: ("The language has the versions 1 and 2, and `vacate` came with version 2.",
            "Die Sprache hat die Versionen 1 und 2, und `vacate` kam mit Version 2."),
        example: "rulebook 3;",
        remedy: ("Write `rulebook 1;`, or `rulebook 2;` if the last clause has `vacate`.",
            "`rulebook 1;` schreiben, oder `rulebook 2;`, wenn die letzte Klausel `vacate` hat.") };
    pub static B12: Entry = Entry { code: FaultCode::B12,
        title: ("house out of range", "Haus außerhalb der Grenzen"),
        meaning: ("A house has from 1 to 4000 seats.", "Ein Haus hat 1 bis 4000 Sitze."),
        example: "house 0;",
        remedy: ("Write the number of seats to be distributed, such as `house 630;`.",
            "Die Zahl der Sitze schreiben, die zu vergeben sind, etwa `house 630;`.") };
    pub static B13: Entry = Entry { code: FaultCode::B13,
        title: ("threshold out of range", "Schwelle außerhalb der Grenzen"),
        meaning: ("In `valid at least n per d`, n is at least 1 and at most d, and d is at most 1000.",
            "In `valid at least n per d` ist n mindestens 1 und höchstens d, und d ist höchstens 1000."),
        example: "eligible valid at least 500 per 100;",
        remedy: ("5 percent are `5 per 100`, and 4.5 percent `45 per 1000`. Without a threshold write `eligible all;`.",
            "5 Prozent sind `5 per 100`, und 4,5 Prozent `45 per 1000`. Ohne Schwelle `eligible all;` schreiben.") };
    pub static B14: Entry = Entry { code: FaultCode::B14,
        title: ("two stages of one name", "zwei Stufen mit einem Namen"),
        meaning: ("Each stage has a name of its own.", "Jede Stufe hat einen eigenen Namen."),
        example: "stage pool = house; stage pool = population;",
        remedy: ("Give one of the two another name, and write that one further down, where the stage is meant.",
            "Einer der beiden einen anderen Namen geben, und diesen weiter unten schreiben, wo die Stufe gemeint ist.") };
    pub static B15: Entry = Entry { code: FaultCode::B15,
        title: ("unknown name", "unbekannter Name"),
        meaning: ("An expression names columns of the returns, and stages above its own; the last clause names a stage. This name is none of them, or that of a stage that does not stand above.",
            "Ein Ausdruck nennt Spalten der Wahlergebnisse, und Stufen über seiner eigenen; die letzte Klausel nennt eine Stufe. Dieser Name ist keiner davon, oder der einer Stufe, die nicht darüber steht."),
        example: "stage lower = split(uper, counted, webster);",
        remedy: ("Check the spelling, and the order of the stages.",
            "Die Schreibweise prüfen, und die Reihenfolge der Stufen.") };
    pub static B16: Entry = Entry { code: FaultCode::B16,
        title: ("shapes that do not fit", "Formen, die nicht passen"),
        meaning: ("A column has a shape: a single number, or a number for each party, each Land or each list. Each form takes arguments of certain shapes (docs/language.md, section 4).",
            "Eine Spalte hat eine Form: eine einzelne Zahl, oder eine Zahl je Partei, je Land oder je Liste. Jeder Ausdruck nimmt Argumente bestimmter Formen (docs/language.md, Abschnitt 4)."),
        example: "stage upper = split(house, sum(counted, all), webster);",
        remedy: ("Write `sum(.., party)`, `sum(.., land)` or `sum(.., all)` around an argument, or take another column.",
            "Ein Argument in `sum(.., party)`, `sum(.., land)` oder `sum(.., all)` setzen, oder eine andere Spalte nehmen.") };
    pub static B17: Entry = Entry { code: FaultCode::B17,
        title: ("units that do not fit", "Einheiten, die nicht passen"),
        meaning: ("A column has seats, or votes, as which people count too. `split` and `grow` distribute seats by votes, and `larger` and `less` take two columns of one unit.",
            "Eine Spalte hat Sitze, oder Stimmen, zu denen auch Einwohner zählen. `split` und `grow` verteilen Sitze nach Stimmen, und `larger` und `less` nehmen zwei Spalten einer Einheit."),
        example: "stage pool = less(house, sum(counted, all));",
        remedy: ("Exchange the arguments of `split`, or take another column.",
            "Die Argumente von `split` vertauschen, oder eine andere Spalte nehmen.") };
    pub static B18: Entry = Entry { code: FaultCode::B18,
        title: ("more than one distribution in a stage",
            "mehr als eine Verteilung in einer Stufe"),
        meaning: ("A stage has at most one `split` or `grow`.",
            "Eine Stufe hat höchstens ein `split` oder `grow`."),
        example: "stage lower = split(split(house, sum(counted, party), webster), counted, webster);",
        remedy: ("Make a stage of the inner one, above this stage, and write its name in its place.",
            "Aus der inneren eine eigene Stufe machen, über dieser, und ihren Namen an ihre Stelle schreiben.") };
    pub static B19: Entry = Entry { code: FaultCode::B19,
        title: ("option that the method does not take",
            "Angabe, die es bei dem Verfahren nicht gibt"),
        meaning: ("`majority prefer` goes with `hamilton` alone; `hamilton` takes no minima (`atleast`), and `grow` takes no `hamilton`.",
            "`majority prefer` gibt es nur bei `hamilton`; bei `hamilton` gibt es keine Mindestzahlen (`atleast`), und bei `grow` kein `hamilton`."),
        example: "stage upper = split(pool, sum(counted, party), webster, majority prefer);",
        remedy: ("Omit the option, or take another method.",
            "Die Angabe weglassen, oder ein anderes Verfahren nehmen.") };
    pub static B20: Entry = Entry { code: FaultCode::B20,
        title: ("cap out of range", "Obergrenze außerhalb der Grenzen"),
        meaning: ("The cap of a growth is from 1 to 4000 seats.",
            "Die Obergrenze eines Wachstums ist 1 bis 4000 Sitze."),
        example: "stage upper = grow(pool, sum(counted, party), webster, floor, 9000);",
        remedy: ("Write the greatest house that may be looked for, such as 4000.",
            "Das größte Haus schreiben, das gesucht werden darf, etwa 4000.") };
    pub static B21: Entry = Entry { code: FaultCode::B21,
        title: ("last clause without seats for each list", "letzte Klausel ohne Sitze je Liste"),
        meaning: ("The stage that the last clause names has seats for each list.",
            "Die Stufe, die die letzte Klausel nennt, hat Sitze je Liste."),
        example: "seats upper cover;",
        remedy: ("Distribute the seats among the lists by one more stage, `stage lists = split(upper, counted, webster);`, and name that one.",
            "Die Sitze durch eine weitere Stufe auf die Listen verteilen, `stage lists = split(upper, counted, webster);`, und diese nennen.") };
}

// Warnings.
#[rattlefmt::skip]
pub(crate) mod warnings {
    use crate::table::Entry;
    use sl_explain_texts::FaultCode;

    pub static W01: Entry = Entry { code: FaultCode::W01,
        title: ("the same people in all Länder", "gleich viele Einwohner in allen Ländern"),
        meaning: ("All Länder have the same number of people. The statute of 2013 distributes its first seats by them.",
            "Alle Länder haben gleich viele Einwohner. Das Gesetz von 2013 verteilt seine ersten Sitze nach ihnen."),
        example: "land,SH,,1,,",
        remedy: ("Write the population of each Land into column a of its `land` record.",
            "Die Einwohnerzahl jedes Landes in Spalte a seines `land`-Datensatzes schreiben.") };
    pub static W02: Entry = Entry { code: FaultCode::W02,
        title: ("Länder without winners", "Länder ohne Wahlkreissieger"),
        meaning: ("No constituency of a Land has a winner, while others have: seats that depend on winners are missing there.",
            "Kein Wahlkreis eines Landes hat einen Sieger, andere haben welche: Sitze, die von Siegern abhängen, fehlen dort."),
        example: "warning[W02]: no constituency of BY has a winner",
        remedy: ("Give a `win` record for each constituency of that Land.", "Für jeden Wahlkreis dieses Landes einen `win`-Datensatz angeben.") };
    pub static W03: Entry = Entry { code: FaultCode::W03,
        title: ("winners without any list", "Wahlkreissieger ohne jede Liste"),
        meaning: ("A party has winners and no list in any Land.", "Eine Partei hat Wahlkreissieger und in keinem Land eine Liste."),
        example: "win,BY,FW,220,60000,180000",
        remedy: ("Give the lists of the party. Where it has none, and its winners are to count as independents, leave the cell of the party empty.",
            "Die Listen der Partei angeben. Hat sie keine, und zählen ihre Sieger als Einzelbewerber, die Zelle der Partei leer lassen.") };
    pub static W04: Entry = Entry { code: FaultCode::W04,
        title: ("winners without a list in their Land", "Wahlkreissieger ohne Liste in ihrem Land"),
        meaning: ("A party has winners in a Land in which it has no list, and lists elsewhere.",
            "Eine Partei hat Wahlkreissieger in einem Land, in dem sie keine Liste hat, und Listen anderswo."),
        example: "win,BY,CDU,220,60000,180000",
        remedy: ("Look for a missing `list` record, and for another party of a similar name.",
            "Nach einem fehlenden `list`-Datensatz suchen, und nach einer Partei ähnlichen Namens.") };
    pub static W05: Entry = Entry { code: FaultCode::W05,
        title: ("lists of which no vote is counted", "Listen, von denen keine Stimme zählt"),
        meaning: ("Lists have valid votes in column a and 0 in column b, the votes that are counted.",
            "Listen haben gültige Stimmen in Spalte a und 0 in Spalte b, den Stimmen, die zählen."),
        example: "list,BY,CSU,2964028,0,",
        remedy: ("Mostly both columns have the same number: all valid votes are counted.",
            "Meist haben beide Spalten dieselbe Zahl: Alle gültigen Stimmen zählen.") };
    pub static W06: Entry = Entry { code: FaultCode::W06,
        title: ("several parties as one", "mehrere Parteien als eine"),
        meaning: ("A party is called Sonstige, Andere, Others or the like. The votes of several parties take part as those of one, and may pass a threshold together.",
            "Eine Partei heißt Sonstige, Andere, Others oder ähnlich. Die Stimmen mehrerer Parteien nehmen als die einer einzigen teil und kommen womöglich über eine Sperrklausel."),
        example: "party,,Sonstige,0,,",
        remedy: ("Give each party with its own votes. Where the sum alone is known, divide it among several parties, none of which passes the threshold.",
            "Jede Partei mit ihren eigenen Stimmen angeben. Ist nur die Summe bekannt, sie auf mehrere Parteien verteilen, von denen keine über die Sperrklausel kommt.") };
    pub static W07: Entry = Entry { code: FaultCode::W07,
        title: ("lot where none is drawn", "Los, wo keines gezogen wird"),
        meaning: ("A lot names a stage that distributes no seats, or that the rulebook does not have; or `seats`, where winners are not covered. It has no effect.",
            "Ein Los nennt eine Stufe, die keine Sitze verteilt oder die es im Regelwerk nicht gibt; oder `seats`, wo Sieger nicht gedeckt werden. Es bewirkt nichts."),
        example: "lot,,SPD,uper,,",
        remedy: ("Take the stage from the line `fault STAGE ..`.", "Die Stufe aus der Zeile `fault STAGE ..` nehmen.") };
    pub static W08: Entry = Entry { code: FaultCode::W08,
        title: ("lot of nobody who is drawn", "Los von niemandem, der gezogen wird"),
        meaning: ("A lot names none of the entries among which it would be drawn: a Land where the stage is by party, a party alone where it is by list. It has no effect.",
            "Ein Los nennt niemanden, unter dem es gezogen würde: ein Land, wo die Stufe nach Parteien verteilt, eine Partei allein, wo sie nach Listen verteilt. Es bewirkt nichts."),
        example: "lot,BY,CSU,upper,,",
        remedy: ("Name those that stand in the line `fault`: parties, Länder, lists, or constituencies (docs/faults.md, section 1).",
            "Die nennen, die in der Zeile `fault` stehen: Parteien, Länder, Listen oder Wahlkreise (docs/faults.md, Abschnitt 1).") };
    pub static W09: Entry = Entry { code: FaultCode::W09,
        title: ("another house than the rulebook's", "andere Hausgröße als im Regelwerk"),
        meaning: ("The returns have a record `house` with another number of seats than the rulebook. The house of the returns is taken.",
            "Die Ergebnisse haben einen Datensatz `house` mit einer anderen Sitzzahl als das Regelwerk. Es gilt die der Ergebnisse."),
        example: "house,,,598,,",
        remedy: ("Delete the record, if the house of the rulebook is meant.",
            "Den Datensatz löschen, wenn die Hausgröße des Regelwerks gemeint ist.") };
    pub static W10: Entry = Entry { code: FaultCode::W10,
        title: ("few parties for a threshold", "wenige Parteien für eine Sperrklausel"),
        meaning: ("The rulebook has a threshold of votes, and fewer than ten parties are given. A threshold is a share of all valid votes, those of the smallest parties too.",
            "Das Regelwerk hat eine Sperrklausel nach Stimmen, und es sind weniger als zehn Parteien angegeben. Eine Sperrklausel ist ein Anteil an allen gültigen Stimmen, auch denen der kleinsten Parteien."),
        example: "warning[W10]: 7 parties alone: a threshold needs the votes of all parties",
        remedy: ("Give all parties, and compare the sum of the valid votes with the published one.",
            "Alle Parteien angeben, und die Summe der gültigen Stimmen mit der veröffentlichten vergleichen.") };
    pub static W11: Entry = Entry { code: FaultCode::W11,
        title: ("Länder without votes", "Länder ohne Stimmen"),
        meaning: ("A Land has people, and no valid vote of any list, while others have some. A file that was cut off at a line end looks like this.",
            "Ein Land hat Einwohner und keine gültige Stimme für eine Liste, andere haben welche. So sieht eine Datei aus, die an einem Zeilenende abgeschnitten wurde."),
        example: "warning[W11]: BY has people and no votes: is the file complete?",
        remedy: ("Compare the length of the file with that of its source, and give the lists of that Land.",
            "Die Länge der Datei mit der ihrer Quelle vergleichen, und die Listen dieses Landes angeben.") };
    pub static W12: Entry = Entry { code: FaultCode::W12,
        title: ("more valid votes than people", "mehr gültige Stimmen als Einwohner"),
        meaning: ("The lists of a Land have more valid votes than the Land has people.",
            "Die Listen eines Landes haben mehr gültige Stimmen, als das Land Einwohner hat."),
        example: "list,BY,CSU,29640280,29640280,",
        remedy: ("Look for a digit too many in a list, and for people that are given in thousands.",
            "Nach einer Ziffer zu viel bei einer Liste suchen, und nach Einwohnern, die in Tausend angegeben sind.") };
    pub static W13: Entry = Entry { code: FaultCode::W13,
        title: ("few second votes beside the first votes", "wenige Zweitstimmen neben den Erststimmen"),
        meaning: ("The lists of a Land have fewer than half as many valid votes as its constituencies.",
            "Die Listen eines Landes haben weniger als halb so viele gültige Stimmen wie seine Wahlkreise."),
        example: "list,SN,SPD,208,208,",
        remedy: ("Look for votes that are given in thousands, and for lists that are missing.",
            "Nach Stimmen suchen, die in Tausend angegeben sind, und nach fehlenden Listen.") };
    pub static W14: Entry = Entry { code: FaultCode::W14,
        title: ("a Land that is a sum", "ein Land, das eine Summe ist"),
        meaning: ("A Land has as many valid votes as all others together, so that each vote may count twice.",
            "Ein Land hat so viele gültige Stimmen wie alle anderen zusammen, so dass womöglich jede Stimme doppelt zählt."),
        example: "land,Bund,,83577140,,",
        remedy: ("Delete the records of that Land.", "Die Datensätze dieses Landes löschen.") };
    pub static W15: Entry = Entry { code: FaultCode::W15,
        title: ("a party that is a sum", "eine Partei, die eine Summe ist"),
        meaning: ("A party is called Insgesamt, Summe, Total or the like. It takes part as a party of its own, with the votes of all others once more.",
            "Eine Partei heißt Insgesamt, Summe, Total oder ähnlich. Sie nimmt als eigene Partei teil, mit den Stimmen aller anderen noch einmal."),
        example: "party,,Insgesamt,0,,",
        remedy: ("Delete the records of that party.", "Die Datensätze dieser Partei löschen.") };
    pub static W16: Entry = Entry { code: FaultCode::W16,
        title: ("minorities with lists everywhere", "Minderheiten mit Listen überall"),
        meaning: ("Parties of national minorities, with 1 in column a of their `party` record, have lists in every Land. A threshold does not hold for them.",
            "Parteien nationaler Minderheiten, mit 1 in Spalte a ihres `party`-Datensatzes, haben Listen in jedem Land. Für sie gilt keine Sperrklausel."),
        example: "party,,FDP,1,,",
        remedy: ("Write 0 there, if the party is none of a national minority.",
            "Dort 0 schreiben, wenn die Partei keine einer nationalen Minderheit ist.") };
    pub static W17: Entry = Entry { code: FaultCode::W17,
        title: ("too few votes for the seats", "zu wenige Stimmen für die Sitze"),
        meaning: ("A house of a hundred seats or more has fewer than a hundred valid votes for each seat. Percentages in place of votes look like this, and so do thousands.",
            "Ein Haus mit hundert oder mehr Sitzen hat weniger als hundert gültige Stimmen je Sitz. So sehen Prozentzahlen anstelle von Stimmen aus, und auch Tausender."),
        example: "list,Bund,CDU,2255,2255,",
        remedy: ("Write votes, as they were counted: percentages are rounded, and give other seats.",
            "Stimmen schreiben, wie sie gezählt wurden: Prozentzahlen sind gerundet und ergeben andere Sitze.") };
    pub static W18: Entry = Entry { code: FaultCode::W18,
        title: ("one party alone takes part", "nur eine Partei nimmt teil"),
        meaning: ("Of several parties one alone meets the conditions of the rulebook, and gets all seats.",
            "Von mehreren Parteien erfüllt nur eine die Bedingungen des Regelwerks, und sie bekommt alle Sitze."),
        example: "eligible valid at least 5 per 10;",
        remedy: ("Compare the threshold: five percent are `5 per 100`.", "Die Sperrklausel vergleichen: fünf Prozent sind `5 per 100`.") };
    pub static W19: Entry = Entry { code: FaultCode::W19,
        title: ("lot of one that gets no seats", "Los von einem, der keine Sitze bekommt"),
        meaning: ("A lot names a party that takes no part, or a list that does not exist. It has no effect.",
            "Ein Los nennt eine Partei, die nicht teilnimmt, oder eine Liste, die es nicht gibt. Es bewirkt nichts."),
        example: "lot,,BSW,upper,,",
        remedy: ("Name those that stand in the line `fault`.", "Die nennen, die in der Zeile `fault` stehen.") };
    pub static W20: Entry = Entry { code: FaultCode::W20,
        title: ("stages without effect", "Stufen ohne Wirkung"),
        meaning: ("No other stage names a stage, and the last clause does not either, so no seat depends on it.",
            "Weder eine andere Stufe noch die letzte Klausel nennt eine Stufe, so dass kein Sitz von ihr abhängt."),
        example: "seats winners keep;",
        remedy: ("Name the last stage in the last clause, as `seats lower cover;`, or delete the stages that nothing needs.",
            "Die letzte Stufe in der letzten Klausel nennen, wie `seats lower cover;`, oder die Stufen löschen, die nichts braucht.") };
}
