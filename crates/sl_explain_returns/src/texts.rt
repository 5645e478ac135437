//! All texts of this crate, in both languages, by topic: a new language is one more field of each. A name in braces stands for a value.

// Texts of how many cells a record has, and of a record of which nothing else can be said.
#[rattlefmt::skip]
pub(crate) mod case {
    use sl_explain_texts::Message;

    pub(crate) const CELL: Message = ("{number} cell", "{number} Zelle");
    pub(crate) const CELLS: Message = ("{number} cells", "{number} Zellen");
    pub(crate) const RECORD: Message = ("record {row} of the returns is refused",
        "Datensatz {row} der Wahlergebnisse wird abgelehnt");
    pub(crate) const TABLE: Message = ("docs/returns.md has the records by example, and the tests of each",
        "docs/returns.md zeigt die Datensätze an Beispielen, und was an jedem geprüft wird");
}

// Texts of returns that are refused as a whole.
#[rattlefmt::skip]
pub(crate) mod faults {
    use sl_explain_texts::{FaultCode, Message, Sentence};

    pub(crate) const OUT_OF_MEMORY: Message = ("memory ran out while the returns were read",
        "beim Lesen der Wahlergebnisse ging der Speicher aus");
    pub(crate) const END_OTHERS: Message = ("end other programs, and run the command again",
        "andere Programme beenden, und den Befehl noch einmal ausführen");
    pub(crate) const TOO_LONG: Sentence = (FaultCode::R12, "the returns have more than 4,194,304 bytes",
        "die Wahlergebnisse haben mehr als 4.194.304 Bytes");
    pub(crate) const RIGHT_FILE: Message = ("is it the right file? An election of the Bundestag has some 1,000 records, in less than 50,000 bytes",
        "ist es die richtige Datei? Eine Bundestagswahl hat rund 1.000 Datensätze, in weniger als 50.000 Bytes");
}

// Texts of records with too many or too few cells, and of cells that are filled or empty against their kind.
#[rattlefmt::skip]
pub(crate) mod fields {
    use sl_explain_texts::Message;

    // What is said of a number of cells.
    pub(crate) const RECORD_COMMENT: Message = ("there are no comments in returns",
        "Kommentare gibt es in diesen Dateien nicht");
    pub(crate) const RECORD_SEMICOLONS: Message = ("this record has semicolons in place of commas",
        "dieser Datensatz hat Semikolons statt Kommas");
    pub(crate) const RECORD_TABS: Message = ("this record has tabs in place of commas",
        "dieser Datensatz hat Tabulatoren statt Kommas");
    pub(crate) const RECORD_PIPES: Message = ("this record has `|` in place of commas",
        "dieser Datensatz hat `|` statt Kommas");
    pub(crate) const SPLIT: Message = ("the record has {cells} in place of six: a comma between thousands splits a number in two",
        "der Datensatz hat {cells} statt sechs: Ein Komma zwischen Tausendern teilt eine Zahl in zwei");
    pub(crate) const DECIMAL_COMMA: Message = ("the record has {cells} in place of six: a decimal comma splits a number in two",
        "der Datensatz hat {cells} statt sechs: Ein Dezimalkomma teilt eine Zahl in zwei");
    pub(crate) const RECORD_TRAILING: Message = ("the record has {cells} in place of six: there is a comma too many at its end",
        "der Datensatz hat {cells} statt sechs: Am Ende steht ein Komma zu viel");
    pub(crate) const RECORD_CELLS: Message = ("the record has {cells} in place of six",
        "der Datensatz hat {cells} statt sechs");

    // What is said of a cell.
    pub(crate) const FILLED: Message = ("column `{column}` of a `{kind:shown}` record must be empty",
        "Spalte `{column}` eines `{kind:shown}`-Datensatzes muss leer sein");
    pub(crate) const NO_SLATE: Message = ("column `{column}` of a `{kind:shown}` record must be empty after the header `kind,..`",
        "Spalte `{column}` eines `{kind:shown}`-Datensatzes muss hinter der Kopfzeile `kind,..` leer sein");
    pub(crate) const NO_ENTRY: Message = ("the lot names neither a Land nor a party",
        "das Los nennt weder ein Land noch eine Partei");
    pub(crate) const LOT_WITHOUT_WINNER: Message = ("a lot of `seats` names a constituency in column b",
        "ein Los von `seats` nennt in Spalte b einen Wahlkreis");
    pub(crate) const NO_SEATS: Message = ("only a lot of `seats` names a constituency in column b",
        "nur ein Los von `seats` nennt in Spalte b einen Wahlkreis");

    // What to do.
    pub(crate) const DELETE: Message = ("delete the line", "die Zeile löschen");
    pub(crate) const REPLACE: Message = ("write a comma between the cells, five in all",
        "zwischen die Zellen ein Komma setzen, fünf im Ganzen");
    pub(crate) const JOIN: Message = ("write the digits alone, as `300000` for `300,000`",
        "nur die Ziffern schreiben, wie `300000` statt `300,000`");
    pub(crate) const WHOLE_NUMBERS: Message = ("votes and people are whole numbers: take the number from its source again; a spreadsheet may have shortened it",
        "Stimmen und Einwohner sind ganze Zahlen: die Zahl noch einmal aus der Quelle nehmen; vielleicht hat eine Tabellenkalkulation sie gekürzt");
    pub(crate) const SHORTEN_RECORD: Message = ("delete it, in each line that has it: six cells have five commas between them",
        "löschen, in jeder solchen Zeile: Sechs Zellen haben fünf Kommas zwischen sich");
    pub(crate) const EMPTY_THE_CELL: Message = ("empty the cell, or move what it holds to its column",
        "die Zelle leeren, oder den Inhalt in seine Spalte setzen");
    pub(crate) const SECOND: Message = ("the number of names left on a list can be given only after the header `kind2,land,party,a,b,c`: change the header, or empty the cell",
        "wie viele Namen auf einer Liste übrig sind, steht nur hinter der Kopfzeile `kind2,land,party,a,b,c`: diese ändern, oder die Zelle leeren");
    pub(crate) const LOT_FORMS: Message = ("a party `lot,,PARTY,STAGE,,`, a Land `lot,LAND,,STAGE,,`, a list `lot,LAND,PARTY,STAGE,,`, a winner `lot,LAND,PARTY,seats,CONSTITUENCY,`",
        "eine Partei `lot,,PARTEI,STUFE,,`, ein Land `lot,LAND,,STUFE,,`, eine Liste `lot,LAND,PARTEI,STUFE,,`, ein Wahlkreissieger `lot,LAND,PARTEI,seats,WAHLKREIS,`");

    // The forms of the kinds.
    pub(crate) const HOUSE_FORM: Message = ("a `house` record has the form `house,,,SEATS,,`",
        "ein `house`-Datensatz hat die Form `house,,,SITZE,,`");
    pub(crate) const LAND_FORM: Message = ("a `land` record has the form `land,NAME,,POPULATION,,`",
        "ein `land`-Datensatz hat die Form `land,NAME,,EINWOHNER,,`");
    pub(crate) const PARTY_FORM: Message = ("a `party` record has the form `party,,NAME,0,,`",
        "ein `party`-Datensatz hat die Form `party,,NAME,0,,`");
    pub(crate) const LIST_FORM: Message = ("a `list` record has the form `list,LAND,PARTY,VALID,COUNTED,`",
        "ein `list`-Datensatz hat die Form `list,LAND,PARTEI,GÜLTIGE,GEZÄHLTE,`");
    pub(crate) const WIN_FORM: Message = ("a `win` record has the form `win,LAND,PARTY,CONSTITUENCY,FIRST,VALID`",
        "ein `win`-Datensatz hat die Form `win,LAND,PARTEI,WAHLKREIS,ERSTSTIMMEN,GÜLTIGE`");
    pub(crate) const NO_FORM: Message = ("each record has six cells, so five commas, as `land,NAME,,POPULATION,,`; delete a line that says nothing",
        "jeder Datensatz hat sechs Zellen, also fünf Kommas, wie `land,NAME,,EINWOHNER,,`; eine Zeile, die nichts sagt, löschen");
}

// Texts of files that are no returns at all.
#[rattlefmt::skip]
pub(crate) mod files {
    use sl_explain_texts::Message;

    // What is said.
    pub(crate) const EMPTY_FILE: Message = ("the file of the returns is empty",
        "die Datei mit den Wahlergebnissen ist leer");
    pub(crate) const UTF16: Message = ("the file of the returns is in UTF-16, which some programs call \"Unicode\"",
        "die Datei mit den Wahlergebnissen ist in UTF-16, das manche Programme „Unicode“ nennen");
    pub(crate) const ZIPPED: Message = ("the file of the returns is compressed (zip): a workbook (.xlsx, .ods) or an archive, and no CSV file",
        "die Datei mit den Wahlergebnissen ist komprimiert (zip): eine Arbeitsmappe (.xlsx, .ods) oder ein Archiv, keine CSV-Datei");
    pub(crate) const PACKED: Message = ("the file of the returns is compressed ({packing})",
        "die Datei mit den Wahlergebnissen ist komprimiert ({packing})");
    pub(crate) const WORKBOOK: Message = ("the file of the returns is a workbook (.xls), and no CSV file",
        "die Datei mit den Wahlergebnissen ist eine Arbeitsmappe (.xls), keine CSV-Datei");
    pub(crate) const RICH_TEXT: Message = ("the file of the returns is a document in RTF, and no plain text",
        "die Datei mit den Wahlergebnissen ist ein Dokument in RTF, kein reiner Text");
    pub(crate) const BINARY: Message = ("the file of the returns is no text: it has a byte 0",
        "die Datei mit den Wahlergebnissen ist kein Text: Sie hat ein Byte 0");
    pub(crate) const CODE: Message = ("the file of the returns is a code file",
        "die Datei mit den Wahlergebnissen ist eine Codedatei");
    pub(crate) const BOOK: Message = ("the file of the returns is a rulebook",
        "die Datei mit den Wahlergebnissen ist ein Regelwerk");

    // What to do.
    pub(crate) const NO_PATH: Message = ("give the path of a file that begins with the line `kind,land,party,a,b,c`; maybe it was not saved",
        "den Pfad einer Datei angeben, die mit der Zeile `kind,land,party,a,b,c` beginnt; vielleicht ist sie nicht gespeichert");
    pub(crate) const EMPTIED: Message = ("give the path of a file that begins with the line `kind,land,party,a,b,c`; maybe it was not saved, or a command wrote to it with `>`, which empties it first",
        "den Pfad einer Datei angeben, die mit der Zeile `kind,land,party,a,b,c` beginnt; vielleicht ist sie nicht gespeichert, oder ein Befehl schrieb mit `>` in sie, was sie zuerst leert");
    pub(crate) const SAVE_PLAIN: Message = ("save it as plain text in UTF-8: in TextEdit, \"Format\" and then \"Make Plain Text\"",
        "als reinen Text in UTF-8 speichern: in TextEdit „Format“, dann „In reinen Text umwandeln“");
    pub(crate) const SAVE: Message = ("save it as CSV in UTF-8, with commas between the cells",
        "als CSV in UTF-8 speichern, mit Kommas zwischen den Zellen");
    pub(crate) const UNPACK: Message = ("unpack it first", "sie zuerst entpacken");
    pub(crate) const SAVE_OR_UNPACK: Message = ("save a workbook as CSV in UTF-8, with commas between the cells; unpack an archive first",
        "eine Arbeitsmappe als CSV in UTF-8 speichern, mit Kommas zwischen den Zellen; ein Archiv zuerst entpacken");
    pub(crate) const ORDER: Message = ("`totals` and `compare` take RETURNS, then BOOK, as in `seatlaw totals returns.csv book.law`; the other commands BOOK, then RETURNS",
        "`totals` und `compare` nehmen RETURNS, dann BOOK, wie in `seatlaw totals returns.csv book.law`; die anderen Befehle BOOK, dann RETURNS");
    pub(crate) const RUN: Message = ("a code file is counted by `run`, CODE, then RETURNS, as in `seatlaw run book.slc returns.csv`",
        "eine Codedatei zählt `run`, CODE, dann RETURNS, wie in `seatlaw run book.slc returns.csv`");
}

// Texts of further records that are refused.
#[rattlefmt::skip]
pub(crate) mod further {
    use sl_explain_texts::Message;

    pub(crate) const ALSO: Message = ("also refused, with these records left out:",
        "auch abgelehnt, wenn man diese Datensätze weglässt:");
    pub(crate) const LINE: Message = ("  line {line}: {fault}", "  Zeile {line}: {fault}");
    pub(crate) const MORE: Message = ("  and {number} more", "  und {number} weitere");
}

// Texts of returns that do not begin with the header.
#[rattlefmt::skip]
pub(crate) mod header {
    use sl_explain_texts::Message;

    // What is said.
    pub(crate) const SEP: Message = ("the first line `{line:shown}` is for a spreadsheet and no header",
        "die erste Zeile `{line:shown}` ist für eine Tabellenkalkulation und keine Kopfzeile");
    pub(crate) const HEADER_SEMICOLONS: Message = ("the cells are separated by semicolons, as a German Excel writes them; here they are separated by commas",
        "die Zellen sind durch Semikolons getrennt, wie ein deutsches Excel sie schreibt; verlangt sind Kommas");
    pub(crate) const HEADER_TABS: Message = ("the cells are separated by tabs; here they are separated by commas",
        "die Zellen sind durch Tabulatoren getrennt; verlangt sind Kommas");
    pub(crate) const HEADER_PIPES: Message = ("the cells are separated by `|`; here they are separated by commas",
        "die Zellen sind durch `|` getrennt; verlangt sind Kommas");
    pub(crate) const OFFICE: Message = ("this looks like a table of results of the election office, such as kerg.csv or kerg2.csv: its columns are not those of returns",
        "das sieht nach einer Ergebnistabelle der Wahlleitung aus, etwa kerg.csv oder kerg2.csv: Ihre Spalten sind nicht die der Wahlergebnisse");
    pub(crate) const WIDE: Message = ("this looks like a table of a spreadsheet, and not like returns, which have a line for each list",
        "das sieht nach einer Tabelle aus einer Tabellenkalkulation aus, und nicht nach Wahlergebnissen mit einer Zeile je Liste");
    pub(crate) const NO_HEADER: Message = ("the first line is a record, and no header stands before it",
        "die erste Zeile ist ein Datensatz; die Kopfzeile davor fehlt");
    pub(crate) const HEADER_COMMENT: Message = ("the first line is a comment; there are none in returns",
        "die erste Zeile ist ein Kommentar; Kommentare gibt es in diesen Dateien nicht");
    pub(crate) const HEADER_TRAILING: Message = ("the header has a comma too many at its end",
        "die Kopfzeile hat am Ende ein Komma zu viel");
    pub(crate) const NUMBERED: Message = ("the header has a column too many at its beginning, as R writes its row names",
        "die Kopfzeile hat am Anfang eine Spalte zu viel, wie R Zeilennamen schreibt");
    pub(crate) const SPELLING: Message = ("the header has blanks or capital letters",
        "die Kopfzeile hat Leerzeichen oder große Buchstaben");
    pub(crate) const COUNT: Message = ("the first line is no header: it has {cells} in place of six",
        "die erste Zeile ist keine Kopfzeile: Sie hat {cells} statt sechs");
    pub(crate) const OTHER_HEADER: Message = ("the first line is no header: `{found:shown}` stands where `{expected}` must",
        "die erste Zeile ist keine Kopfzeile: `{found:shown}` steht dort, wo `{expected}` stehen muss");

    // What to do.
    pub(crate) const EXPECTED: Message = ("the first line must be `kind,land,party,a,b,c`, or `kind2,land,party,a,b,c` where lists give the number of names left on them",
        "die erste Zeile muss `kind,land,party,a,b,c` sein, oder `kind2,land,party,a,b,c`, wenn Listen angeben, wie viele Namen auf ihnen übrig sind");
    pub(crate) const REPLACE_SEMICOLONS: Message = ("replace each `;` by `,` in an editor, or save from LibreOffice with the field delimiter `,`; Excel's \"CSV UTF-8\" has semicolons too; tables of a spreadsheet: docs/from-a-spreadsheet.md",
        "in einem Editor jedes `;` durch `,` ersetzen, oder aus LibreOffice mit dem Feldtrenner `,` speichern; auch Excels „CSV UTF-8“ hat Semikolons; Tabellen einer Tabellenkalkulation: docs/from-a-spreadsheet.md");
    pub(crate) const REPLACE_TABS: Message = ("replace each tab by `,` in an editor, or save as CSV with the field delimiter `,`",
        "in einem Editor jeden Tabulator durch `,` ersetzen, oder als CSV mit dem Feldtrenner `,` speichern");
    pub(crate) const REPLACE_PIPES: Message = ("replace each `|` by `,` in an editor, or save as CSV with the field delimiter `,`",
        "in einem Editor jedes `|` durch `,` ersetzen, oder als CSV mit dem Feldtrenner `,` speichern");
    pub(crate) const SHEETS: Message = ("the script `tools/from-spreadsheet` makes returns from two tables, one of votes and one of winners: docs/from-a-spreadsheet.md",
        "das Skript `tools/from-spreadsheet` macht Wahlergebnisse aus zwei Tabellen, einer der Stimmen und einer der Sieger: docs/from-a-spreadsheet.md");
    pub(crate) const ADD: Message = ("write `kind,land,party,a,b,c` as a line before it",
        "davor die Zeile `kind,land,party,a,b,c` schreiben");
    pub(crate) const SHORTEN_HEADER: Message = ("delete the column in every line: six cells have five commas between them",
        "die Spalte in jeder Zeile löschen: Sechs Zellen haben fünf Kommas zwischen sich");
    pub(crate) const NO_NAMES: Message = ("delete the column in every line; in R: `write.csv(x, file, row.names = FALSE, quote = FALSE, na = \"\")`",
        "die Spalte in jeder Zeile löschen; in R: `write.csv(x, file, row.names = FALSE, quote = FALSE, na = \"\")`");
}

// Texts of records of no kind.
#[rattlefmt::skip]
pub(crate) mod kinds {
    use sl_explain_texts::Message;

    // What is said.
    pub(crate) const EMPTY_ROW: Message = ("a row of empty cells is no record",
        "eine Zeile aus leeren Zellen ist kein Datensatz");
    pub(crate) const NO_KIND: Message = ("the first cell is empty: it names the kind of the record",
        "die erste Zelle ist leer: Sie nennt die Art des Datensatzes");
    pub(crate) const AGAIN: Message = ("the header stands a second time",
        "die Kopfzeile steht ein zweites Mal da");
    pub(crate) const KIND_COMMENT: Message = ("`{cell:shown}` is no kind of record; there are no comments in returns",
        "`{cell:shown}` ist keine Art von Datensatz; Kommentare gibt es in diesen Dateien nicht");
    pub(crate) const OTHER_KIND: Message = ("`{cell:shown}` is no kind of record",
        "`{cell:shown}` ist keine Art von Datensatz");

    // What to do.
    pub(crate) const DELETE_ROWS: Message = ("delete the row, and those like it: a spreadsheet writes them where cells were emptied; delete rows there, not contents",
        "diese und gleiche Zeilen löschen: Eine Tabellenkalkulation schreibt sie für geleerte Zellen; dort ganze Zeilen löschen");
    pub(crate) const JOINED: Message = ("a second file was joined to the first, with its byte order mark: delete this line, and the records after it that stand above already",
        "hier wurde eine zweite Datei angehängt, mit ihrer Bytereihenfolge-Markierung: diese Zeile löschen, und dahinter die Datensätze, die oben schon stehen");
    pub(crate) const NEAREST_KIND: Message = ("did you mean `{kind}`? The kinds are written in small letters, without blanks",
        "war `{kind}` gemeint? Die Arten stehen in kleinen Buchstaben, ohne Leerzeichen");
    pub(crate) const KINDS: Message = ("a record begins with `house`, `land`, `party`, `list`, `win` or `lot`; rows of sums and notes are deleted",
        "ein Datensatz beginnt mit `house`, `land`, `party`, `list`, `win` oder `lot`; Summenzeilen und Notizen löschen");
    pub(crate) const NO_LAND_RECORD: Message = ("the returns have no `land` record",
        "die Datei hat keinen `land`-Datensatz");
    pub(crate) const ADD_LAND: Message = ("add a line for each Land before its lists: `land,NAME,,POPULATION,,`",
        "für jedes Land eine Zeile vor seinen Listen einfügen: `land,NAME,,EINWOHNER,,`");
}

// Texts of cells that are no names.
#[rattlefmt::skip]
pub(crate) mod names {
    use sl_explain_texts::Message;

    // What names name.
    pub(crate) const OF_LAND: Message = ("name of a Land", "Name eines Landes");
    pub(crate) const OF_PARTY: Message = ("name of a party", "Name einer Partei");
    pub(crate) const OF_WIN: Message = ("name of a constituency", "Name eines Wahlkreises");
    pub(crate) const OF_STAGE: Message = ("name of a stage, or `seats`",
        "Name einer Stufe, oder `seats`");

    // What is wrong.
    pub(crate) const EMPTY_CELL: Message = ("column {column}, {what}: the cell is empty",
        "Spalte {column}, {what}: Die Zelle ist leer");
    pub(crate) const LONG_NAME: Message = ("column {column}, {what}: `{cell:shown}` has {bytes} bytes, more than the twelve of a name",
        "Spalte {column}, {what}: `{cell:shown}` hat {bytes} Bytes, mehr als die zwölf eines Namens");
    pub(crate) const BLANK: Message = ("column {column}, {what}: `{cell:shown}` has a blank",
        "Spalte {column}, {what}: `{cell:shown}` hat ein Leerzeichen");
    pub(crate) const CHARACTER: Message = ("column {column}, {what}: `{cell:shown}` has the character `{character:shown}`, which no name may have",
        "Spalte {column}, {what}: `{cell:shown}` hat das Zeichen `{character:shown}`, das kein Name haben darf");
    pub(crate) const WIDE_CHARACTER: Message = ("column {column}, {what}: `{cell:shown}` has the character {number}, which no name may have",
        "Spalte {column}, {what}: `{cell:shown}` hat das Zeichen {number}, das kein Name haben darf");
    pub(crate) const LOOKALIKE: Message = ("column {column}, {what}: `{cell:shown}` has the letter {number} of another script, which looks like `{letter}`",
        "Spalte {column}, {what}: `{cell:shown}` hat den Buchstaben {number} einer anderen Schrift, der wie `{letter}` aussieht");
    pub(crate) const CONTROL: Message = ("column {column}, {what}: `{cell:shown}` has a control character, the byte {byte}",
        "Spalte {column}, {what}: `{cell:shown}` hat ein Steuerzeichen, das Byte {byte}");
    pub(crate) const LATIN: Message = ("column {column}, {what}: `{cell:shown}` has a letter of Latin-1 (Windows-1252), which no name may have",
        "Spalte {column}, {what}: `{cell:shown}` hat einen Buchstaben aus Latin-1 (Windows-1252), den kein Name haben darf");

    // What to do.
    pub(crate) const FILL: Message = ("write the name there; count the commas: the columns are `kind,land,party,a,b,c`",
        "dort den Namen schreiben; die Kommas zählen: Die Spalten sind `kind,land,party,a,b,c`");
    pub(crate) const RENAME: Message = ("write `{name}`, or another short name, and the same one in every record that means it",
        "`{name}` schreiben, oder einen anderen kurzen Namen, und denselben in jedem Datensatz, der ihn meint");
    pub(crate) const SPELL: Message = ("a name has 1 to 12 of the characters A to Z, a to z, 0 to 9, `_` and `-`; an umlaut is two letters, as in `GRUENE`",
        "ein Name hat 1 bis 12 der Zeichen A bis Z, a bis z, 0 bis 9, `_` und `-`; ein Umlaut wird zu zwei Buchstaben, wie in `GRUENE`");
    pub(crate) const STAGE: Message = ("write the word after `stage` in the rulebook, or `seats` for its last clause",
        "das Wort hinter `stage` im Regelwerk schreiben, oder `seats` für seine letzte Klausel");
}

// Texts of cells that hold no number, or one out of its range.
#[rattlefmt::skip]
pub(crate) mod numbers {
    use sl_explain_texts::Message;

    // What numbers count.
    pub(crate) const HOUSE: Message = ("seats of the house", "Sitze des Hauses");
    pub(crate) const PEOPLE: Message = ("population of the Land", "Einwohner des Landes");
    pub(crate) const MINORITY: Message = ("party of a national minority, 0 or 1",
        "Partei einer nationalen Minderheit, 0 oder 1");
    pub(crate) const VALID: Message = ("valid votes of the list",
        "gültige Stimmen der Liste");
    pub(crate) const COUNTED_VOTES: Message = ("counted votes of the list",
        "gezählte Stimmen der Liste");
    pub(crate) const SLATE: Message = ("names left on the list", "übrige Namen der Liste");
    pub(crate) const FIRST_VOTES: Message = ("first votes of the winner",
        "Erststimmen des Siegers");
    pub(crate) const ALL_FIRST: Message = ("valid first votes of the constituency",
        "gültige Erststimmen des Wahlkreises");

    // What numbers look like.
    pub(crate) const LONG_NUMBER: Message = ("column {column}, {what}: `{cell:shown}` has more than twelve digits",
        "Spalte {column}, {what}: `{cell:shown}` hat mehr als zwölf Ziffern");
    pub(crate) const MISSING: Message = ("column {column}, {what}: `{cell:shown}` stands for a missing value and is no number",
        "Spalte {column}, {what}: `{cell:shown}` steht für einen fehlenden Wert und ist keine Zahl");
    pub(crate) const EDGED: Message = ("column {column}, {what}: `{cell:shown}` has a blank before or after the number",
        "Spalte {column}, {what}: `{cell:shown}` hat ein Leerzeichen vor oder hinter der Zahl");
    pub(crate) const SIGNED: Message = ("column {column}, {what}: `{cell:shown}` has a sign",
        "Spalte {column}, {what}: `{cell:shown}` hat ein Vorzeichen");
    pub(crate) const EXPONENT: Message = ("column {column}, {what}: `{cell:shown}` is written with an exponent",
        "Spalte {column}, {what}: `{cell:shown}` ist mit Exponent geschrieben");
    pub(crate) const DATE: Message = ("column {column}, {what}: `{cell:shown}` is a date",
        "Spalte {column}, {what}: `{cell:shown}` ist ein Datum");
    pub(crate) const SEPARATED: Message = ("column {column}, {what}: `{cell:shown}` has separators between its thousands",
        "Spalte {column}, {what}: `{cell:shown}` hat Trennzeichen zwischen den Tausendern");
    pub(crate) const DECIMAL: Message = ("column {column}, {what}: `{cell:shown}` has decimals",
        "Spalte {column}, {what}: `{cell:shown}` hat Nachkommastellen");
    pub(crate) const PERCENT: Message = ("column {column}, {what}: `{cell:shown}` is a percentage",
        "Spalte {column}, {what}: `{cell:shown}` ist ein Prozentsatz");
    pub(crate) const OTHER_CHARACTER: Message = ("column {column}, {what}: `{cell:shown}` has another character than the digits 0 to 9",
        "Spalte {column}, {what}: `{cell:shown}` hat ein anderes Zeichen als die Ziffern 0 bis 9");

    // What to do.
    pub(crate) const WRITE: Message = ("write `{digits}`: the digits alone",
        "`{digits}` schreiben: nur die Ziffern");
    pub(crate) const WRITE_WHOLE: Message = ("write a whole number of at most twelve digits, 0 to 9, without any other character",
        "eine ganze Zahl aus höchstens zwölf Ziffern schreiben, 0 bis 9, ohne andere Zeichen");
    pub(crate) const WRITE_KNOWN: Message = ("write the number; where there are none, `0`",
        "die Zahl schreiben; wo es keine gibt, `0`");
    pub(crate) const WRITE_VALID: Message = ("write the number of votes; where the party has no list, delete the record",
        "die Zahl der Stimmen schreiben; wo die Partei keine Liste hat, den Datensatz löschen");
    pub(crate) const WRITE_COUNTED: Message = ("write the counted votes, mostly the same number as in column a, `{valid}`; with `0` the list would get no seats",
        "die gezählten Stimmen schreiben, meist dieselbe Zahl wie in Spalte a, `{valid}`; mit `0` bekäme die Liste keine Sitze");
    pub(crate) const NO_SHARES: Message = ("write the whole number of votes, people or seats: no shares, thousands or millions",
        "die ganze Zahl der Stimmen, Einwohner oder Sitze schreiben: keine Anteile, Tausender oder Millionen");
    pub(crate) const NO_PERCENT: Message = ("write the number of votes, not a percentage",
        "die Zahl der Stimmen schreiben, keinen Prozentsatz");
    pub(crate) const WRITE_DIGITS: Message = ("write all the digits of the number, as `300000` for `3E5`",
        "alle Ziffern der Zahl ausschreiben, wie `300000` statt `3E5`");
    pub(crate) const NOT_BELOW: Message = ("the number can't be below 0: write it without a sign, or `0`",
        "die Zahl kann nicht unter 0 sein: ohne Vorzeichen schreiben, oder `0`");
    pub(crate) const NOT_A_DATE: Message = ("a spreadsheet turned the number into a date: format the column as text, and enter the number again",
        "eine Tabellenkalkulation hat die Zahl in ein Datum verwandelt: Spalte als Text formatieren, Zahl neu eingeben");
    pub(crate) const FORMAT: Message = ("in a spreadsheet, format the column as whole numbers without separators before you save it as CSV",
        "in einer Tabellenkalkulation die Spalte als ganze Zahl ohne Trennzeichen formatieren, dann als CSV speichern");

    // Numbers out of range.
    pub(crate) const RANGE: Message = ("column {column}, {what}: `{cell:shown}` is not from {least} to {greatest}",
        "Spalte {column}, {what}: `{cell:shown}` liegt nicht zwischen {least} und {greatest}");
    pub(crate) const WINNER_WITHOUT_VOTES: Message = ("a winner has at least one first vote: write the winner's own in column b, and all valid ones in column c",
        "wer siegt, hat mindestens eine Erststimme: in Spalte b die eigenen, in Spalte c alle gültigen");
    pub(crate) const FLAG: Message = ("write `1` for a party of a national minority, `0` for every other one",
        "`1` für eine Partei einer nationalen Minderheit schreiben, sonst `0`");
    pub(crate) const NAMES_LEFT: Message = ("write how many names are left on the list; where that is not known, leave the cell empty",
        "schreiben, wie viele Namen auf der Liste übrig sind; ist es nicht bekannt, die Zelle leer lassen");
    pub(crate) const LOOK: Message = ("correct the number; maybe two columns are exchanged",
        "Zahl berichtigen; vielleicht sind zwei Spalten vertauscht");
    pub(crate) const MORE_FIRST: Message = ("the winner has {first} first votes (column b) of only {valid} valid ones (column c)",
        "{first} Erststimmen (Spalte b) sind mehr als die {valid} gültigen des Wahlkreises (Spalte c)");
    pub(crate) const EXCHANGE_FIRST: Message = ("write the winner's first votes in column b and all valid first votes in column c; maybe they are exchanged",
        "in Spalte b die Erststimmen des Siegers, in Spalte c alle gültigen; vielleicht sind sie vertauscht");
}

// Texts of a quote that is not closed, or only lines later.
#[rattlefmt::skip]
pub(crate) mod quotes {
    use sl_explain_texts::Message;

    pub(crate) const OPEN: Message = ("this quote is not closed on its line, so its cell goes on over the ends of lines",
        "dieses Anführungszeichen ist auf seiner Zeile nicht geschlossen, so läuft seine Zelle über die Zeilenenden weiter");
    pub(crate) const CLOSE: Message = ("close the quote, or delete it: names and numbers need none",
        "das Anführungszeichen schließen oder löschen: Namen und Zahlen brauchen keine");
}

// Texts of what a record before has given, and of what is more than there may be.
#[rattlefmt::skip]
pub(crate) mod twice {
    use sl_explain_texts::Message;

    // What is said.
    pub(crate) const LAND_TWICE: Message = ("the Land `{name}` is declared a second time",
        "das Land `{name}` kommt ein zweites Mal vor");
    pub(crate) const PARTY_TWICE: Message = ("the party `{name}` is declared a second time",
        "die Partei `{name}` kommt ein zweites Mal vor");
    pub(crate) const WIN_TWICE: Message = ("the constituency `{name}` has a second winner",
        "der Wahlkreis `{name}` hat einen zweiten Sieger");
    pub(crate) const HOUSE_TWICE: Message = ("the house is given a second time",
        "die Größe des Hauses ist ein zweites Mal angegeben");
    pub(crate) const LIST_TWICE: Message = ("the list of the party `{party}` in the Land `{land}` is given a second time",
        "die Liste der Partei `{party}` im Land `{land}` kommt ein zweites Mal vor");
    pub(crate) const LOT_TWICE: Message = ("this lot is given a second time",
        "dieses Los kommt ein zweites Mal vor");

    // What to do.
    pub(crate) const FIRST_LINE: Message = ("line {line} has the first one: delete one of the two, or correct a name",
        "Zeile {line} hat das erste: eines von beiden löschen, oder einen Namen berichtigen");
    pub(crate) const FIRST_HOUSE: Message = ("line {line} has the first one: delete one of the two",
        "Zeile {line} hat die erste Angabe: eine von beiden löschen");
    pub(crate) const ONE_RECORD_EACH: Message = ("rows of sums don't belong into returns: one record for each list",
        "Summenzeilen gehören nicht in die Datei: ein Datensatz für jede Liste");

    // More votes counted than valid.
    pub(crate) const MORE_COUNTED: Message = ("{counted} counted votes (column b) are more than the {valid} valid ones (column a)",
        "{counted} gezählte Stimmen (Spalte b) sind mehr als die {valid} gültigen (Spalte a)");
    pub(crate) const EXCHANGE_COUNTED: Message = ("write all valid votes of the list in column a, those of them that are counted in column b; maybe they are exchanged",
        "in Spalte a alle gültigen Stimmen der Liste, in Spalte b die davon gezählten; vielleicht sind sie vertauscht");

    // Too many.
    pub(crate) const LANDS: Message = ("this is Land number {number}; there may be {greatest}",
        "dies ist Land Nummer {number}; möglich sind {greatest}");
    pub(crate) const PARTIES: Message = ("this is party number {number}; there may be {greatest}",
        "dies ist Partei Nummer {number}; möglich sind {greatest}");
    pub(crate) const WINS: Message = ("this is constituency number {number}; there may be {greatest}",
        "dies ist Wahlkreis Nummer {number}; möglich sind {greatest}");
    pub(crate) const LOTS: Message = ("this is lot number {number}; there may be {greatest}",
        "dies ist Los Nummer {number}; möglich sind {greatest}");
    pub(crate) const FEWER: Message = ("delete records that don't belong to this election; maybe a column has been copied into the wrong kind of record",
        "Datensätze löschen, die nicht zu dieser Wahl gehören; vielleicht steht eine Spalte in der falschen Art von Datensatz");
    pub(crate) const FEWER_LOTS: Message = ("keep the lots of stages that have a tie, and delete the others",
        "Lose von Stufen mit Gleichstand behalten, die anderen löschen");
}

// Texts of names that no record before declares.
#[rattlefmt::skip]
pub(crate) mod unknown {
    use sl_explain_texts::Message;

    // What is said.
    pub(crate) const NO_LAND: Message = ("no record before this one declares the Land `{name:shown}`",
        "kein Datensatz davor nennt das Land `{name:shown}`");
    pub(crate) const NO_PARTY: Message = ("no record before this one declares the party `{name:shown}`",
        "kein Datensatz davor nennt die Partei `{name:shown}`");
    pub(crate) const NO_WIN: Message = ("no `win` record before this one is of the constituency `{name:shown}`",
        "kein `win`-Datensatz davor ist vom Wahlkreis `{name:shown}`");

    // What to do.
    pub(crate) const NEAREST_NAME: Message = ("did you mean `{name}`? Names are compared letter by letter",
        "war `{name}` gemeint? Namen werden Buchstabe für Buchstabe verglichen");
    pub(crate) const LANDS_ABOVE: Message = ("the Länder above are {lands}", "die Länder darüber sind {lands}");
    pub(crate) const PARTIES_ABOVE: Message = ("the parties above are {parties}", "die Parteien darüber sind {parties}");
    pub(crate) const WINS_ABOVE: Message = ("the constituencies above are {constituencies}",
        "die Wahlkreise darüber sind {constituencies}");
    pub(crate) const LATER: Message = ("line {line} declares it: move that record before this one, or all `land` and `party` records to the top",
        "der Name steht erst in Zeile {line}: jenen Datensatz vor diesen stellen, oder alle `land` und `party` nach oben");
    pub(crate) const IS_PARTY: Message = ("`{name}` is a party: the Land stands in the second column, the party in the third",
        "`{name}` ist eine Partei: Das Land steht in der zweiten Spalte, die Partei in der dritten");
    pub(crate) const IS_LAND: Message = ("`{name}` is a Land: the Land stands in the second column, the party in the third",
        "`{name}` ist ein Land: Das Land steht in der zweiten Spalte, die Partei in der dritten");
    pub(crate) const NO_PARTY_OF_WINNER: Message = ("for a winner without a party leave the cell empty: `win,{land:shown},,{constituency:shown},FIRST,VALID`",
        "bei einem Sieger ohne Partei die Zelle leer lassen: `win,{land:shown},,{constituency:shown},ERSTSTIMMEN,GÜLTIGE`");
    pub(crate) const NO_SUMS: Message = ("a row of sums is deleted: returns have the lists and winners alone",
        "Summenzeilen löschen: die Datei hat nur Listen und Wahlkreissieger");
    pub(crate) const DECLARE_LAND: Message = ("if there is such a Land, declare it in a line before this one: `land,{name:shown},,POPULATION,,`",
        "gibt es dieses Land, so gehört davor eine Zeile: `land,{name:shown},,EINWOHNER,,`");
    pub(crate) const DECLARE_PARTY: Message = ("if there is such a party, declare it in a line before this one: `party,,{name:shown},0,,`",
        "gibt es diese Partei, so gehört davor eine Zeile: `party,,{name:shown},0,,`");
    pub(crate) const DECLARE_WIN: Message = ("a lot of `seats` names a winner: its `win` record stands before it, as `win,LAND,PARTY,{name:shown},FIRST,VALID`",
        "ein Los von `seats` nennt einen Wahlkreissieger: Der `win`-Datensatz steht davor, wie `win,LAND,PARTEI,{name:shown},ERSTSTIMMEN,GÜLTIGE`");
}
