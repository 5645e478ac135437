//! All texts of this crate, in both languages, by topic: a new language is one more field of each. A name in braces stands for a value.

// Texts of words that ask for no command.
#[rattlefmt::skip]
pub(crate) mod answers {
    use sl_explain_texts::Message;

    pub(crate) const NO_MEMORY: Message = ("error: out of memory\n",
        "Fehler: der Speicher reicht nicht\n");
}

// Texts of requests that cannot be.
#[rattlefmt::skip]
pub(crate) mod command_line {
    use sl_explain_texts::Message;

    // Why `code` refuses one word for its rulebook and its code file.
    pub(crate) const SAME_FILE: Message = ("BOOK and OUT are one file, which would be lost: write the code to another",
        "BOOK und OUT sind eine Datei, die verloren ginge: den Code in eine andere schreiben");

    // Why `explain` refuses a word.
    pub(crate) const UNKNOWN_CODE: Message = ("there is no such code: a code is a letter and two digits, such as B15; docs/faults.md lists them",
        "es gibt keinen solchen Code: ein Code ist ein Buchstabe und zwei Ziffern, wie B15; docs/faults.md nennt alle");
    pub(crate) const NO_COMMAND: Message = ("no command is given",
        "es ist kein Befehl angegeben");
}

// Texts of the commands: what each does, reads and writes.
#[rattlefmt::skip]
pub(crate) mod help {
    use sl_explain_texts::Message;

    pub(crate) const PROGRAM_ABOUT: Message = ("Seat tables of the Bundestag by a rulebook and returns",
        "Sitztabellen des Bundestags nach einem Regelwerk und Wahlergebnissen");
    pub(crate) const PROGRAM_MORE: Message = ("Each command reads files and writes to standard output; `seatlaw help COMMAND` says more.",
        "Jeder Befehl liest Dateien und schreibt auf die Standardausgabe; mehr sagt `seatlaw help BEFEHL`.");
    pub(crate) const COUNT_ABOUT: Message = ("Counts an election and writes its seat table",
        "Zählt eine Wahl aus und schreibt ihre Sitztabelle");
    pub(crate) const COUNT_MORE: Message = ("Reads a rulebook and returns. Writes the seats in all, of each party and of each list,\n\
         how many of them constituency winners fill, the seats that stay vacant, and the winners\n\
         who sit by themselves or are not seated; or else the line of a legal fault. With\n\
         `--json` the same is written as tables in JSON.",
        "Liest ein Regelwerk und Wahlergebnisse. Schreibt die Sitze insgesamt, die jeder Partei und\n\
         jeder Liste, wie viele davon Wahlkreissieger besetzen, die Sitze, die unbesetzt bleiben,\n\
         und die Sieger, die ohne Liste sitzen oder keinen Sitz haben; oder aber die Zeile eines\n\
         rechtlichen Fehlers. Mit `--json` schreibt der Befehl dasselbe als Tabellen in JSON.");
    pub(crate) const STEPS_ABOUT: Message = ("Counts an election and writes the step that won each seat, then its seat table",
        "Zählt eine Wahl aus und schreibt zu jedem Sitz den Schritt, der ihn brachte, dann die Sitztabelle");
    pub(crate) const STEPS_MORE: Message = ("Reads a rulebook and returns. Writes a line for each seat of a distribution, with the\n\
         step in which it was won and the quotient or remainder that won it; then the bounds\n\
         between which every divisor gives just these seats; and at the end the text of `count`.\n\
         Or else the line of a legal fault. With `--json` the same is written as tables in JSON.",
        "Liest ein Regelwerk und Wahlergebnisse. Schreibt für jeden Sitz einer Verteilung eine Zeile\n\
         mit dem Schritt, in dem er gewonnen wurde, und der Höchstzahl oder dem Bruchteil, der ihn\n\
         brachte; dann die Grenzen, zwischen denen jeder Divisor genau diese Sitze ergibt; und am\n\
         Ende den Text von `count`. Oder aber die Zeile eines rechtlichen Fehlers. Mit `--json`\n\
         schreibt der Befehl dasselbe als Tabellen in JSON.");
    pub(crate) const STAGE_ABOUT: Message = ("Counts an election and writes the numbers of one stage",
        "Zählt eine Wahl aus und schreibt die Zahlen einer Stufe");
    pub(crate) const STAGE_MORE: Message = ("Reads a rulebook and returns. Writes a line for each party, Land or list with its number\n\
         in the column of that stage, or one line for a stage that is a single number; or else\n\
         the line of a legal fault, of this stage or of another.",
        "Liest ein Regelwerk und Wahlergebnisse. Schreibt für jede Partei, jedes Land oder jede\n\
         Liste eine Zeile mit der Zahl in der Spalte dieser Stufe, oder eine Zeile für eine Stufe,\n\
         die eine einzige Zahl ist; oder aber die Zeile eines rechtlichen Fehlers, dieser Stufe\n\
         oder einer anderen.");
    pub(crate) const CHECK_ABOUT: Message = ("Checks a rulebook and writes a line about it",
        "Prüft ein Regelwerk und schreibt eine Zeile darüber");
    pub(crate) const CHECK_MORE: Message = ("Reads a rulebook. Writes its version, its house, the number of its stages and the name\n\
         of its law.",
        "Liest ein Regelwerk. Schreibt seine Version, sein Haus, die Zahl seiner Stufen und den\n\
         Namen seines Gesetzes.");
    pub(crate) const CODE_ABOUT: Message = ("Compiles a rulebook to a code file and writes the listing of the code",
        "Übersetzt ein Regelwerk in eine Codedatei und listet den Code auf");
    pub(crate) const CODE_MORE: Message = ("Reads a rulebook. Writes its counting code to the file OUT, and then a line for each\n\
         instruction. OUT is written if it is not there, is empty or is a code file; else the\n\
         command line is refused. It is left empty where the rulebook is refused.",
        "Liest ein Regelwerk. Schreibt seinen Zählcode in die Datei OUT, und dann eine Zeile für\n\
         jeden Befehl des Codes. OUT wird geschrieben, wenn es fehlt, leer ist oder eine Codedatei\n\
         ist; sonst wird die Befehlszeile abgelehnt. Wird das Regelwerk abgelehnt, bleibt OUT leer.");
    pub(crate) const RUN_ABOUT: Message = ("Runs a code file on returns and writes the seat table",
        "Wendet eine Codedatei auf Wahlergebnisse an und schreibt die Sitztabelle");
    pub(crate) const RUN_MORE: Message = ("Reads a code file and returns. Writes what `count` writes for the rulebook behind the\n\
         code: its seat table, or else the line of a legal fault.",
        "Liest eine Codedatei und Wahlergebnisse. Schreibt, was `count` für das Regelwerk schreibt,\n\
         aus dem der Code stammt: die Sitztabelle, oder aber die Zeile eines rechtlichen Fehlers.");
    pub(crate) const LAW_ABOUT: Message = ("Writes a rulebook of the library",
        "Schreibt ein Regelwerk der Bibliothek");
    pub(crate) const LAW_MORE: Message = ("Reads no file. Writes the text of the rulebook, from which one of your own may start.",
        "Liest keine Datei. Schreibt den Text des Regelwerks, mit dem ein eigenes beginnen kann.");
    pub(crate) const EXPLAIN_ABOUT: Message = ("Says what the code of a fault means",
        "Sagt, was der Code eines Fehlers bedeutet");
    pub(crate) const EXPLAIN_MORE: Message = ("Reads no file. Writes what happened, an example, and what to do. Each error has its code\n\
         in brackets: `error[B15]`.",
        "Liest keine Datei. Schreibt, was geschehen ist, ein Beispiel, und was zu tun ist. Jeder\n\
         Fehler nennt seinen Code in Klammern: `Fehler[B15]`.");
    pub(crate) const REPORT_ABOUT: Message = ("Counts an election and writes all of it as tables that people read",
        "Zählt eine Wahl aus und schreibt alles daran in Tabellen zum Lesen");
    pub(crate) const REPORT_MORE: Message = ("Reads a rulebook and returns. Writes who takes part and why; the seats of parties and\n\
         lists; for each distribution a divisor, the quotients, the last seat, the next claim and\n\
         the votes missing for one more; contested lists by share; and winners without a seat.",
        "Liest ein Regelwerk und Wahlergebnisse. Schreibt, wer teilnimmt und warum; die Sitze der\n\
         Parteien und Listen; für jede Verteilung einen Divisor, die Höchstzahlen, den letzten\n\
         Sitz, den nächsten Anspruch und die Stimmen, die für einen weiteren fehlen; die Sieger\n\
         von Listen mit weniger Sitzen, nach Anteil; und die Sieger ohne Sitz.");
    pub(crate) const STAGES_ABOUT: Message = ("Counts an election and writes the numbers of all stages",
        "Zählt eine Wahl aus und schreibt die Zahlen aller Stufen");
    pub(crate) const STAGES_MORE: Message = ("Reads a rulebook and returns. Writes a line for each stage with its shape, its unit and\n\
         its sum, and then the column of each.",
        "Liest ein Regelwerk und Wahlergebnisse. Schreibt für jede Stufe eine Zeile mit ihrer Form,\n\
         ihrer Einheit und ihrer Summe, und dann die Spalte jeder Stufe.");
    pub(crate) const TOTALS_ABOUT: Message = ("Writes the sums of returns, and warnings of what is likely a mistake",
        "Schreibt die Summen von Wahlergebnissen und warnt vor wahrscheinlichen Fehlern");
    pub(crate) const TOTALS_MORE: Message = ("Reads returns, and a rulebook if one is given. Writes the votes and winners in all, by\n\
         party and by Land; with a rulebook who takes part, and what the others lack for it.\n\
         Seats are not counted.",
        "Liest Wahlergebnisse, und ein Regelwerk, wenn eines angegeben ist. Schreibt die Stimmen und\n\
         die Wahlkreissieger insgesamt, nach Parteien und nach Ländern; mit einem Regelwerk auch,\n\
         wer teilnimmt, und was den anderen dazu fehlt. Sitze werden nicht verteilt.");
    pub(crate) const COMPARE_ABOUT: Message = ("Counts an election by several rulebooks and writes the seats side by side",
        "Zählt eine Wahl nach mehreren Regelwerken aus und schreibt die Sitze nebeneinander");
    pub(crate) const COMPARE_MORE: Message = ("Reads returns and rulebooks; without one, all statutes of the library. Writes the\n\
         seats of each party and of each list by each of them, and the first stage in which they\n\
         differ from the first one. A legal fault stands in the column of its rulebook.",
        "Liest Wahlergebnisse und Regelwerke; ohne Regelwerk alle Gesetze der Bibliothek.\n\
         Schreibt die Sitze jeder Partei und jeder Liste nach jedem davon, und die erste Stufe,\n\
         in der ein Regelwerk vom ersten abweicht. Ein rechtlicher Fehler steht in der Spalte\n\
         seines Regelwerks.");
}

// Texts of what to do about words that are refused.
#[rattlefmt::skip]
pub(crate) mod hints {
    use sl_explain_texts::Message;

    pub(crate) const CALLED: Message = ("the command is called '{name}'", "der Befehl heißt '{name}'");
    pub(crate) const VERSION: Message = ("`seatlaw --version` writes the version",
        "`seatlaw --version` schreibt die Version");
    pub(crate) const ALL: Message = ("the commands are count, steps, stage, check, code, run, law, explain, report, stages, totals and compare",
        "die Befehle sind count, steps, stage, check, code, run, law, explain, report, stages, totals und compare");
    pub(crate) const COMMAND_FIRST: Message = ("the command comes first, as in `seatlaw count @2023-order returns.csv`",
        "der Befehl steht vorne, wie in `seatlaw count @2023-order returns.csv`");
    pub(crate) const OPTION_BEHIND: Message = ("an option stands after its command, as in `seatlaw count @2023-order returns.csv --lang de`",
        "eine Option steht hinter ihrem Befehl, wie in `seatlaw count @2023-order returns.csv --lang de`");
    pub(crate) const REPORTS: Message = ("`--markdown`, `--html`, `--json`, `--csv` and `--names` are options of report, stages, totals and compare, and `--json` of count and steps too",
        "`--markdown`, `--html`, `--json`, `--csv` und `--names` sind Optionen von report, stages, totals und compare, und `--json` auch von count und steps");
    pub(crate) const CODE_ALONE: Message = ("`--force` is an option of code",
        "`--force` ist eine Option von code");
    pub(crate) const REPORT_ALONE: Message = ("`--short` and `--before` are options of report",
        "`--short` und `--before` sind Optionen von report");
    pub(crate) const BESIDE_SHORT: Message = ("`--before` stands beside `--short`, as in `seatlaw report --short --before earlier.txt @2023-order returns.csv`",
        "`--before` steht neben `--short`, wie in `seatlaw report --short --before frueher.txt @2023-order returns.csv`");
    pub(crate) const NO_RULEBOOK: Message = ("`--method` stands beside a rulebook, as in `seatlaw compare returns.csv @2023-order --method hill`",
        "`--method` steht neben einem Regelwerk, wie in `seatlaw compare returns.csv @2023-order --method hill`");
    pub(crate) const METHODS: Message = ("`webster` is Sainte-Laguë's method, `jefferson` d'Hondt's, `hamilton` that of largest remainders; each stands after its own `--method`",
        "`webster` ist das Verfahren von Sainte-Laguë, `jefferson` das von d'Hondt, `hamilton` das der größten Reste; jedes steht hinter seinem eigenen `--method`");
    pub(crate) const COMPARE_ALONE: Message = ("`--method` is an option of compare; a rulebook says its method itself",
        "`--method` ist eine Option von compare; ein Regelwerk nennt sein Verfahren selbst");
    pub(crate) const IN_PLACE: Message = ("files stand in their places, without a name, as in `seatlaw count @2023-order returns.csv`",
        "Dateien stehen an ihrem Platz, ohne einen Namen, wie in `seatlaw count @2023-order returns.csv`");
    pub(crate) const TO_FILE: Message = ("write `> FILE` at the end, as in `seatlaw count @2023-order returns.csv > seats.txt`",
        "am Ende `> DATEI` schreiben, wie in `seatlaw count @2023-order returns.csv > sitze.txt`");
    pub(crate) const FORMAT: Message = ("write `--markdown`, `--html`, `--json` or `--csv` to report, stages, totals or compare for another form",
        "`--markdown`, `--html`, `--json` oder `--csv` geben report, stages, totals und compare eine andere Form");
    pub(crate) const HYPHENS: Message = ("an option begins with two hyphens: `--{name}`",
        "eine Option beginnt mit zwei Bindestrichen: `--{name}`");
    pub(crate) const QUOTED: Message = ("a path with a blank stands in quotes, as in `seatlaw count @2023-order \"returns 2025.csv\"`",
        "ein Pfad mit Leerzeichen steht in Anführungszeichen, wie in `seatlaw count @2023-order \"returns 2025.csv\"`");
    pub(crate) const ONE_STAGE: Message = ("`stages` writes all stages; `stage` writes one, as in `seatlaw stage @2013 returns.csv floor`",
        "`stages` schreibt alle Stufen; eine schreibt `stage`, wie in `seatlaw stage @2013 returns.csv floor`");
    pub(crate) const STAGE: Message = ("NAME is a stage of the rulebook, as in `seatlaw stage @2013 returns.csv floor`; `seatlaw stages @2013 returns.csv` writes all of them",
        "NAME ist eine Stufe des Regelwerks, wie in `seatlaw stage @2013 returns.csv floor`; `seatlaw stages @2013 returns.csv` schreibt alle Stufen");
    pub(crate) const FOR_EXAMPLE: Message = ("for example `seatlaw {words}`",
        "zum Beispiel `seatlaw {words}`");
    pub(crate) const FROM_INPUT: Message = ("for example `seatlaw {words}`; for standard input write `/dev/stdin`",
        "zum Beispiel `seatlaw {words}`; für die Standardeingabe `/dev/stdin` schreiben");
}

// Texts of the page of a help.
#[rattlefmt::skip]
pub(crate) mod page {
    use sl_explain_texts::Message;

    /// The title of the line that says how a command is called.
    pub(crate) const USAGE: Message = ("Usage: ", "Aufruf: ");
    pub(crate) const COMMAND: Message = (" <COMMAND>", " <BEFEHL>");
    pub(crate) const SOME_OPTIONS: Message = (" [OPTIONS]", " [OPTIONEN]");
    pub(crate) const TITLE_OF_COMMANDS: Message = ("\n\nCommands:", "\n\nBefehle:");
    pub(crate) const TITLE_OF_STATUTES: Message = ("\n\nStatutes, each with the elections that were held under it:",
        "\n\nGesetze, jedes mit den Wahlen, die ihm folgten:");
    pub(crate) const NO_ELECTION: Message = ("no election", "keine Wahl");
    pub(crate) const TITLE_OF_WORDS: Message = ("\n\nArguments:", "\n\nArgumente:");
    pub(crate) const TITLE_OF_OPTIONS: Message = ("\n\nOptions:", "\n\nOptionen:");
    pub(crate) const HELP_COMMAND: Message = ("Print this message or the help of the given subcommand(s)",
        "Zeigt diese Hilfe oder die eines Befehls");
    pub(crate) const VALUES: Message = (" [possible values: ", " [mögliche Werte: ");
    pub(crate) const EXAMPLE: Message = ("\n\nExample:\n  seatlaw ",
        "\n\nBeispiel:\n  seatlaw ");
    pub(crate) const STATUSES: Message = ("\n\nExit status:", "\n\nExit-Status:");
    pub(crate) const ALL_STATUSES: Message = ("\n\nExit status, of which the help of a command has its own:",
        "\n\nExit-Status; die Hilfe eines Befehls nennt die seinen:");
}

// Texts of `clap` about words that it refuses.
#[rattlefmt::skip]
pub(crate) mod refusals {
    use sl_explain_texts::Message;

    // The sentences of `clap`, whose English text is the pattern by which their values are read.
    pub(crate) const NO_SUBCOMMAND: Message = ("'{command}' requires a subcommand but one was not provided\n  [subcommands: {commands}]",
        "auf '{command}' muss ein Befehl folgen\n  [Befehle: {commands}]");
    pub(crate) const UNKNOWN_SUBCOMMAND: Message = ("unrecognized subcommand '{word}'",
        "es gibt keinen Befehl '{word}'");
    pub(crate) const MISSING_ARGUMENTS: Message = ("the following required arguments were not provided:{arguments}",
        "es fehlen diese Argumente:{arguments}");
    pub(crate) const UNEXPECTED_ARGUMENT: Message = ("unexpected argument '{word}' found",
        "unerwartetes Argument '{word}'");
    pub(crate) const UNEXPECTED_VALUE: Message = ("unexpected value '{value}' for '{argument}' found; no more were expected",
        "unerwarteter Wert '{value}': '{argument}' nimmt keinen");
    pub(crate) const MISSING_VALUE_OF_THESE: Message = ("a value is required for '{argument}' but none was supplied\n  [possible values: {values}]",
        "'{argument}' braucht einen Wert\n  [mögliche Werte: {values}]");
    pub(crate) const MISSING_VALUE: Message = ("a value is required for '{argument}' but none was supplied",
        "'{argument}' braucht einen Wert");
    pub(crate) const INVALID_VALUE: Message = ("invalid value '{value}' for '{argument}'\n  [possible values: {values}]",
        "ungültiger Wert '{value}' für '{argument}'\n  [mögliche Werte: {values}]");
    pub(crate) const REPEATED_ARGUMENT: Message = ("the argument '{argument}' cannot be used multiple times",
        "das Argument '{argument}' darf nur einmal stehen");
    pub(crate) const UNLIKE_ARGUMENT: Message = ("the argument '{argument}' cannot be used with '{other}'",
        "das Argument '{argument}' darf nicht neben '{other}' stehen");
    pub(crate) const UNLIKE_ARGUMENTS: Message = ("the argument '{argument}' cannot be used with:{others}",
        "das Argument '{argument}' darf nicht neben diesen stehen:{others}");
    pub(crate) const OTHER_REFUSAL: Message = ("{sentence}",
        "die Befehlszeile ist so nicht zu verstehen");

    // Its tips, likewise.
    pub(crate) const SIMILAR_SUBCOMMAND: Message = ("a similar subcommand exists: '{command}'",
        "es gibt einen ähnlichen Befehl: '{command}'");
    pub(crate) const SIMILAR_SUBCOMMANDS: Message = ("some similar subcommands exist: {commands}",
        "es gibt ähnliche Befehle: {commands}");
    pub(crate) const SIMILAR_ARGUMENT: Message = ("a similar argument exists: '{argument}'",
        "es gibt ein ähnliches Argument: '{argument}'");
    pub(crate) const SIMILAR_VALUE: Message = ("a similar value exists: '{value}'",
        "es gibt einen ähnlichen Wert: '{value}'");
    pub(crate) const PASSED_AS_VALUE: Message = ("to pass '{word}' as a value, use '{words}'",
        "um '{word}' als Wert zu übergeben, '{words}' schreiben");

    /// What stands before a tip.
    pub(crate) const TIP: Message = ("\n  tip: {tip}", "\n  Tipp: {tip}");

    // A refusal, by its sentence, its tips and its usage.
    pub(crate) const REFUSAL: Message = ("error: {sentence}{tips}\n\n{usage}\n\nFor more information, try '--help'.\n",
        "Fehler: {sentence}{tips}\n\n{usage}\n\nMehr dazu sagt '--help'.\n");
}

// Texts of the exit statuses.
#[rattlefmt::skip]
pub(crate) mod statuses {
    use sl_explain_texts::Message;

    pub(crate) const DONE: Message = ("  0  done", "  0  erledigt");
    pub(crate) const WORDS: Message = ("  1  the command line is refused; standard error says why",
        "  1  die Befehlszeile wird abgelehnt; die Fehlerausgabe sagt, warum");
    pub(crate) const INPUT: Message = ("  2  an input is refused; the line `refused ..` says which, why and where",
        "  2  eine Eingabe wird abgelehnt; die Zeile `refused ..` sagt, welche, warum und wo");
    pub(crate) const LEGAL: Message = ("  3  a legal fault, such as a tie without a lot; the line `fault ..` names it",
        "  3  ein rechtlicher Fehler, etwa ein Gleichstand ohne Los; die Zeile `fault ..` nennt ihn");
    pub(crate) const BUDGET: Message = ("  4  the run of the code file takes too many steps: `out of budget`",
        "  4  die Ausführung der Codedatei braucht zu viele Schritte: `out of budget`");
    pub(crate) const BUDGET_OF_RUN: Message = ("  4  of `run`: the code file takes too many steps, `out of budget`",
        "  4  nur bei `run`: die Codedatei braucht zu viele Schritte, `out of budget`");
    pub(crate) const FILE_STATUS: Message = ("  5  a file cannot be read or written, or memory runs out; standard error says which",
        "  5  eine Datei lässt sich nicht lesen oder schreiben, oder der Speicher reicht nicht; die Fehlerausgabe sagt, was davon");
    pub(crate) const OUTPUT: Message = ("  5  the output cannot be written, or memory runs out; standard error says which",
        "  5  die Ausgabe lässt sich nicht schreiben, oder der Speicher reicht nicht; die Fehlerausgabe sagt, was davon");
}

// Texts of the reasons that the system gives for a file that cannot be opened or made.
#[rattlefmt::skip]
pub(crate) mod system {
    use sl_explain_texts::Message;

    // What stands before the number of an error.
    pub(crate) const NUMBER: Message = (" (os error ", " (Systemfehler ");

    // The reasons in German, by the numbers that Linux gives them. In English the system tells them itself.
    pub(crate) const REASONS: [(&str, &str); 27] = [
        ("1", "Der Vorgang ist nicht erlaubt"),
        ("2", "Datei oder Ordner nicht gefunden"),
        ("4", "Der Aufruf des Systems wurde unterbrochen"),
        ("5", "Eingabe- oder Ausgabefehler"),
        ("6", "Gerät oder Adresse nicht gefunden"),
        ("11", "Zurzeit nicht verfügbar"),
        ("12", "Der Arbeitsspeicher reicht nicht"),
        ("13", "Keine Berechtigung"),
        ("16", "Das Gerät ist belegt"),
        ("17", "Die Datei gibt es schon"),
        ("19", "Gerät nicht gefunden"),
        ("20", "Ein Teil des Pfads ist kein Ordner"),
        ("21", "Ist ein Ordner"),
        ("22", "Ungültiges Argument"),
        ("23", "Im ganzen System sind zu viele Dateien offen"),
        ("24", "Zu viele Dateien sind offen"),
        ("26", "Die Datei ist ein Programm, das gerade läuft"),
        ("27", "Die Datei ist zu groß"),
        ("28", "Auf dem Datenträger ist kein Platz mehr"),
        ("30", "Das Dateisystem lässt sich nur lesen"),
        ("36", "Der Dateiname ist zu lang"),
        ("40", "Zu viele symbolische Verknüpfungen hintereinander"),
        ("75", "Der Wert ist zu groß für seinen Datentyp"),
        ("95", "Der Vorgang wird nicht unterstützt"),
        ("110", "Zeitüberschreitung der Verbindung"),
        ("116", "Die Datei auf dem Server gibt es nicht mehr"),
        ("122", "Der zugeteilte Speicherplatz ist verbraucht"),
    ];
}

// Texts of the words and options of the commands.
#[rattlefmt::skip]
pub(crate) mod words {
    use sl_explain_texts::Message;

    pub(crate) const FILE_VALUE: Message = ("FILE", "DATEI");
    pub(crate) const BOOK_HELP: Message = ("The rulebook: a path, or @NAME for one of the library",
        "Das Regelwerk: ein Pfad, oder @NAME für eines der Bibliothek");
    pub(crate) const BOOKS_HELP: Message = ("Rulebooks: paths, or @NAME for one of the library",
        "Regelwerke: Pfade, oder @NAME für eines der Bibliothek");
    pub(crate) const RETURNS_HELP: Message = ("The returns, the numbers of an election: the path of a CSV file",
        "Die Wahlergebnisse, die Zahlen einer Wahl: der Pfad einer CSV-Datei");
    pub(crate) const STAGE_NAME_HELP: Message = ("The name of a stage of the rulebook: the word after `stage`",
        "Der Name einer Stufe des Regelwerks: das Wort nach `stage`");
    pub(crate) const OUT_HELP: Message = ("The code file to write: a path; a file there must be empty or a code file",
        "Die Codedatei, die entsteht: ein Pfad; eine Datei dort muss leer oder eine Codedatei sein");
    pub(crate) const CODE_FILE_HELP: Message = ("The code file, as `code` writes it: a path",
        "Die Codedatei, wie `code` sie schreibt: ein Pfad");
    pub(crate) const STATUTE_HELP: Message = ("The name of a statute of the library, without `@`",
        "Der Name eines Gesetzes der Bibliothek, ohne `@`");
    pub(crate) const FAULT_CODE_HELP: Message = ("The code of a fault, as an error has it in brackets: B15",
        "Der Code eines Fehlers, wie ihn eine Meldung in Klammern nennt: B15");
    pub(crate) const SHORT_HELP: Message = ("A page for the press: seats, votes, the last seat and the next claim",
        "Eine Seite für die Presse: Sitze, Stimmen, letzter Sitz, nächster Anspruch");
    pub(crate) const MARKDOWN_HELP: Message = ("Write Markdown", "Schreibt Markdown");
    pub(crate) const HTML_HELP: Message = ("Write a page of HTML",
        "Schreibt eine HTML-Seite");
    pub(crate) const JSON_HELP: Message = ("Write JSON (docs/report.md)",
        "Schreibt JSON (docs/report.md)");
    pub(crate) const CSV_HELP: Message = ("Write comma-separated values",
        "Schreibt kommagetrennte Werte");
    pub(crate) const BEFORE_HELP: Message = ("With --short: an earlier seat table, as `count` writes it, for the changes",
        "Mit --short: eine frühere Sitztabelle, wie `count` sie schreibt, für die Änderungen");
    pub(crate) const METHOD_VALUE: Message = ("METHOD", "VERFAHREN");
    pub(crate) const METHOD_HELP: Message = ("Each rulebook also with this method in all its splits; may be repeated",
        "Jedes Regelwerk auch mit diesem Verfahren in allen Verteilungen; darf mehrfach stehen");
    pub(crate) const NAMES_HELP: Message = ("Full names: the path of a CSV file of short and full ones",
        "Volle Namen: der Pfad einer CSV-Datei mit kurzen und vollen");
    pub(crate) const QUIET_HELP: Message = ("Omits explanations and warnings on standard error",
        "Lässt Erklärungen und Warnungen auf der Fehlerausgabe weg");
    pub(crate) const LANGUAGE_VALUE: Message = ("LANGUAGE", "SPRACHE");
    pub(crate) const LANGUAGE_HELP: Message = ("The language of explanations, else that of the environment",
        "Die Sprache der Erklärungen, sonst die der Umgebung");
    pub(crate) const FORCE_HELP: Message = ("Write OUT whatever file it is, but for BOOK",
        "Schreibt OUT, welche Datei auch immer dort liegt, nur nicht über BOOK");
    pub(crate) const HELP_HELP: Message = ("Print help", "Zeigt diese Hilfe");
    pub(crate) const VERSION_HELP: Message = ("Print version", "Zeigt die Version");
}
