//! The words of a count.

ghost use Rattle.std.specs.Prelude.{◌≡◌, map, string_bytes};
ghost use Rattle.std.specs.Option.{option_map};
ghost use Rattle.sl_terminal_count.specs.Words.{asked, asked_by};

use sl_count_calls::View;

/// A count, as the command line asks for it.
#[derive(Clone, Copy)]
pub struct Count<'a> {
    pub view: View<'a>,
    pub book: &'a str,
    pub returns: &'a str,
}

/// What the words ask for, of which the first is the program's name.
pub fn count_of(words: &[String]) -> Option<Count<'_>>
    ensures { option_map asked_by result ≡ asked (map string_bytes words.now) }
{
    match words {
        [_, command, book, returns] => match command.as_str() {
            "count" => Some(Count {
                view: View::Seats,
                book: book.as_str(),
                returns: returns.as_str(),
            }),
            "steps" => Some(Count {
                view: View::Steps,
                book: book.as_str(),
                returns: returns.as_str(),
            }),
            _ => None,
        },
        [_, command, book, returns, name] => match command.as_str() {
            "stage" => Some(Count {
                view: View::Stage(name.as_str()),
                book: book.as_str(),
                returns: returns.as_str(),
            }),
            _ => None,
        },
        _ => None,
    }
}
