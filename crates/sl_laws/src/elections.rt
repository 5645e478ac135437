//! The elections to the Bundestag, each with the statute under which it was held.

/// The elections by their years, in their order, each with the name of its statute, if the library has it.
pub static ELECTIONS: [(&str, Option<&str>); 21] = [
    ("1949", None),
    ("1953", None),
    ("1957", Some("1956")),
    ("1961", Some("1956")),
    ("1965", Some("1956")),
    ("1969", Some("1956")),
    ("1972", Some("1956")),
    ("1976", Some("1956")),
    ("1980", Some("1956")),
    ("1983", Some("1956")),
    ("1987", Some("1985")),
    ("1990", None),
    ("1994", Some("1985")),
    ("1998", Some("1985")),
    ("2002", Some("1985")),
    ("2005", Some("1985")),
    ("2009", Some("2008")),
    ("2013", Some("2013")),
    ("2017", Some("2013")),
    ("2021", None),
    ("2025", Some("2023-order")),
];
