//! All texts of this crate, in both languages: a new language is one more field of each. A name in braces stands for a value.

pub(crate) use rows::*;

#[rattlefmt::skip]
mod rows {
    use sl_explain_texts::Message;

    // ---- opening

    pub(crate) const NO_BOOK: Message = ("the rulebook `{path}` cannot be opened: {reason}",
        "das Regelwerk `{path}` lässt sich nicht öffnen: {reason}");
    pub(crate) const NO_RETURNS: Message = ("the returns `{path}` cannot be opened: {reason}",
        "die Wahlergebnisse `{path}` lassen sich nicht öffnen: {reason}");
    pub(crate) const NO_CODE: Message = ("the code file `{path}` cannot be opened: {reason}",
        "die Codedatei `{path}` lässt sich nicht öffnen: {reason}");
    pub(crate) const NO_NAMES: Message = ("the names `{path}` cannot be opened: {reason}",
        "die Namen `{path}` lassen sich nicht öffnen: {reason}");
    pub(crate) const NO_BEFORE: Message = ("the earlier table `{path}` cannot be opened: {reason}",
        "die frühere Sitztabelle `{path}` lässt sich nicht öffnen: {reason}");
    pub(crate) const NO_OUTPUT: Message = ("the file `{path}` cannot be written: {reason}",
        "die Datei `{path}` lässt sich nicht schreiben: {reason}");
    pub(crate) const LOST: Message = ("the file `{path}` is no code file, and would be lost",
        "die Datei `{path}` ist keine Codedatei und ginge verloren");
    pub(crate) const LOST_BOOK: Message = ("the file `{path}` has the bytes of the rulebook, which would be lost",
        "die Datei `{path}` hat die Bytes des Regelwerks, das verloren ginge");
    pub(crate) const FORCE: Message = ("write the code to another file, or add `--force`",
        "den Code in eine andere Datei schreiben, oder `--force` hinzufügen");
    pub(crate) const ANOTHER: Message = ("write the code to another file",
        "den Code in eine andere Datei schreiben");

    // What is said of an input that was opened, and of standard output or a file that was.
    pub(crate) const UNREAD_BOOK: Message = ("the file of the rulebook was opened, and cannot be read",
        "die Datei des Regelwerks ließ sich öffnen, aber nicht lesen");
    pub(crate) const UNREAD_RETURNS: Message = ("the file of the returns was opened, and cannot be read",
        "die Datei der Wahlergebnisse ließ sich öffnen, aber nicht lesen");
    pub(crate) const UNREAD_CODE: Message = ("the code file was opened, and cannot be read",
        "die Codedatei ließ sich öffnen, aber nicht lesen");
    pub(crate) const UNREAD_NAMES: Message = ("the file of the names was opened, and cannot be read",
        "die Datei der Namen ließ sich öffnen, aber nicht lesen");
    pub(crate) const UNREAD_BEFORE: Message = ("the file of the earlier table was opened, and cannot be read",
        "die Datei der früheren Sitztabelle ließ sich öffnen, aber nicht lesen");
    pub(crate) const UNWRITTEN: Message = ("what the command writes could not be written to its end",
        "was der Befehl schreibt, ließ sich nicht zu Ende schreiben");
    pub(crate) const FOLDER: Message = ("is it a folder? Give the path of a file in it",
        "ist es ein Ordner? Den Pfad einer Datei darin angeben");
    pub(crate) const FULL: Message = ("the disk may be full, or the program that reads the output may have ended",
        "vielleicht ist die Platte voll, oder das Programm, das die Ausgabe liest, ist zu Ende");
    pub(crate) const LIBRARY: Message = ("the library has this rulebook as `@{name}`",
        "die Bibliothek hat dieses Regelwerk als `@{name}`");
    pub(crate) const STANDARD_INPUT: Message = ("for standard input write `/dev/stdin`",
        "für die Standardeingabe `/dev/stdin` schreiben");

    // The order of the words.
    pub(crate) const BOOK_FIRST: Message = ("`{path}` is a rulebook, and `{command}` takes it first: `seatlaw {command} {path} returns.csv`",
        "`{path}` ist ein Regelwerk, und `{command}` nimmt es zuerst: `seatlaw {command} {path} returns.csv`");
    pub(crate) const RETURNS_FIRST: Message = ("`{path}` is a rulebook, and `{command}` takes the returns first: `seatlaw {command} returns.csv {path}`",
        "`{path}` ist ein Regelwerk, und `{command}` nimmt die Wahlergebnisse zuerst: `seatlaw {command} returns.csv {path}`");

    pub(crate) const BOOK_THEN_RETURNS: Message = ("`{command}` takes the rulebook first, then the returns: `seatlaw {command} @2023-order returns.csv`",
        "`{command}` nimmt zuerst das Regelwerk, dann die Wahlergebnisse: `seatlaw {command} @2023-order returns.csv`");
    pub(crate) const RETURNS_THEN_BOOK: Message = ("`{command}` takes the returns first, then the rulebook: `seatlaw {command} returns.csv @2023-order`",
        "`{command}` nimmt zuerst die Wahlergebnisse, dann das Regelwerk: `seatlaw {command} returns.csv @2023-order`");
    pub(crate) const NO_CODE_FILE: Message = ("`{path}` is a rulebook, which `count` takes; `run` takes a code file, as `code` writes it",
        "`{path}` ist ein Regelwerk, das `count` nimmt; `run` nimmt eine Codedatei, wie `code` sie schreibt");
    pub(crate) const NAME_LAST: Message = ("`stage` takes the rulebook, the returns, then the name of a stage: `seatlaw stage @2013 returns.csv {name}`",
        "`stage` nimmt das Regelwerk, die Wahlergebnisse, dann den Namen einer Stufe: `seatlaw stage @2013 returns.csv {name}`");
    pub(crate) const SCHEME: Message = ("write a path, without `file://`",
        "einen Pfad schreiben, ohne `file://`");
    pub(crate) const SHELL: Message = ("the shell replaces `~` and `*` only outside of quotes",
        "die Shell ersetzt `~` und `*` nur außerhalb von Anführungszeichen");
    pub(crate) const BACKSLASH: Message = ("write a path with `/` between its parts",
        "einen Pfad mit `/` zwischen seinen Teilen schreiben");
    pub(crate) const PATH: Message = ("look whether the path is right; a relative one begins in the folder in which the command runs",
        "den Pfad prüfen; ein relativer beginnt in dem Ordner, in dem der Befehl läuft");
}
