//! The statutes of the library, and the texts of their rulebooks.

const LAW_1956: &str = r#"rulebook 2;
law "Bundeswahlgesetz 1956";
house 494;
eligible valid at least 5 per 100 or winners at least 3 or minority;
stage pool = less(house, sum(outside, all));
stage upper = split(pool, sum(counted, party), jefferson);
stage lower = split(upper, counted, jefferson);
seats lower keep vacate;
"#;

const LAW_1985: &str = r#"rulebook 2;
law "Bundeswahlgesetz 1985";
house 496;
eligible valid at least 5 per 100 or winners at least 3 or minority;
stage pool = less(house, sum(outside, all));
stage upper = split(pool, sum(counted, party), hamilton, majority prefer);
stage lower = split(upper, counted, hamilton);
seats lower keep vacate;
"#;

const LAW_2008: &str = r#"rulebook 2;
law "Bundeswahlgesetz 2008";
house 598;
eligible valid at least 5 per 100 or winners at least 3 or minority;
stage pool = less(house, sum(outside, all));
stage upper = split(pool, sum(counted, party), webster, majority refuse);
stage lower = split(upper, counted, webster);
seats lower keep vacate;
"#;

const LAW_2013: &str = r#"rulebook 2;
law "Bundeswahlgesetz 2013";
house 598;
eligible valid at least 5 per 100 or winners at least 3 or minority;
stage pool = less(house, sum(outside, all));
stage lands = split(house, population, webster);
stage first = split(less(lands, outside), counted, webster);
stage floor = sum(larger(first, winners), party);
stage upper = grow(pool, sum(counted, party), webster, floor, 4000, majority refuse);
stage lower = split(upper, counted, webster, atleast winners);
seats lower keep vacate;
"#;

const LAW_2023: &str = r#"rulebook 1;
law "Bundeswahlgesetz 2023";
house 630;
eligible valid at least 5 per 100 or minority;
stage pool = less(house, sum(independents, all));
stage upper = split(pool, sum(counted, party), webster, majority refuse);
stage lower = split(upper, counted, webster);
seats lower cover;
"#;

const LAW_2023_ORDER: &str = r#"rulebook 1;
law "Bundeswahlgesetz 2023, order of 2024";
house 630;
eligible valid at least 5 per 100 or winners at least 3 or minority;
stage pool = less(house, sum(independents, all));
stage upper = split(pool, sum(counted, party), webster, majority refuse);
stage lower = split(upper, counted, webster);
seats lower cover;
"#;

/// A statute of the library: its name, and the text of its rulebook.
#[derive(Clone, Copy)]
pub struct Statute {
    pub name: &'static str,
    pub text: &'static str,
}

/// The statutes of the library, in their order.
pub static STATUTES: [Statute; 6] = [
    Statute {
        name: "1956",
        text: LAW_1956,
    },
    Statute {
        name: "1985",
        text: LAW_1985,
    },
    Statute {
        name: "2008",
        text: LAW_2008,
    },
    Statute {
        name: "2013",
        text: LAW_2013,
    },
    Statute {
        name: "2023",
        text: LAW_2023,
    },
    Statute {
        name: "2023-order",
        text: LAW_2023_ORDER,
    },
];
