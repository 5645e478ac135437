//! Counts of worked elections: their books, their returns, and what is written where the returns end after each of their records.

use crate::calls::Call;

/// A call, its book, its returns, and what it writes where they end after a record, for each from the header on.
#[derive(Clone, Copy)]
pub struct Row {
    pub call: Call,
    pub book: &'static str,
    pub returns: &'static str,
    pub texts: &'static [&'static str],
}

/// Books of one split, of three seats and of two; in the last one winners are seated by their shares.
pub const THREE_SEATS: &str =
    "rulebook 1; law \"t\"; house 3; eligible all; stage s = split(house, counted, webster); seats s keep;";

pub const TWO_SEATS: &str =
    "rulebook 1; law \"t\"; house 2; eligible all; stage s = split(house, counted, webster); seats s keep;";

pub const COVERING: &str =
    "rulebook 1; law \"t\"; house 2; eligible all; stage s = split(house, counted, webster); seats s cover;";

/// Steps of two lists, and of three that are tied, with a lot.
pub static STEPS: [Row; 2] = [
    Row {
        call: Call::Steps,
        book: THREE_SEATS,
        returns: "kind,land,party,a,b,c\nland,X,,1000,,\nparty,,A,0,,\nparty,,B,0,,\nlist,X,A,30,30,\nlist,X,B,10,10,\n",
        texts: &[
            "refused returns 11 1\n",
            "fault s all nolist\n",
            "fault s all nolist\n",
            "fault s all nolist\n",
            "seat s all X/A 1 1 60/1\nseat s all X/A 2 2 60/3\nseat s all X/A 3 3 60/5\nbounds s all 60/5 60/7\ntotal 3\nparty A 3 0\nparty B 0 0\nlist X A 3 0\n",
            "seat s all X/A 1 1 60/1\nseat s all X/A 2 2 60/3\nseat s all X/B 1 2 20/1\nbounds s all 60/3 60/5\ntotal 3\nparty A 2 0\nparty B 1 0\nlist X A 2 0\nlist X B 1 0\n",
        ],
    },
    Row {
        call: Call::Steps,
        book: TWO_SEATS,
        returns: "kind,land,party,a,b,c\nland,X,,1000,,\nparty,,A,0,,\nparty,,B,0,,\nparty,,C,0,,\nlist,X,A,10,10,\nlist,X,B,10,10,\nlist,X,C,10,10,\nlot,X,C,s,,\nlot,X,B,s,,\nlot,X,A,s,,\n",
        texts: &[
            "refused returns 11 1\n",
            "fault s all nolist\n",
            "fault s all nolist\n",
            "fault s all nolist\n",
            "fault s all nolist\n",
            "seat s all X/A 1 1 20/1\nseat s all X/A 2 2 20/3\nbounds s all 20/3 20/5\ntotal 2\nparty A 2 0\nparty B 0 0\nparty C 0 0\nlist X A 2 0\n",
            "seat s all X/A 1 1 20/1\nseat s all X/B 1 1 20/1\nbounds s all 20/1 20/3\ntotal 2\nparty A 1 0\nparty B 1 0\nparty C 0 0\nlist X A 1 0\nlist X B 1 0\n",
            "fault s all tie 2 X/A X/B X/C\n",
            "fault s all tie 2 X/A X/B X/C\n",
            "fault s all tie 2 X/A X/B X/C\n",
            "seat s all X/B 1 1 20/1\nseat s all X/C 1 1 20/1\nbounds s all 20/1 20/1 lot\ntotal 2\nparty A 0 0\nparty B 1 0\nparty C 1 0\nlist X A 0 0\nlist X B 1 0\nlist X C 1 0\n",
        ],
    },
];

/// Winners who are seated by their shares, and two of them tied, with a lot.
pub static COVERINGS: [Row; 2] = [
    Row {
        call: Call::Count,
        book: COVERING,
        returns: "kind,land,party,a,b,c\nland,X,,1000,,\nparty,,A,0,,\nlist,X,A,10,10,\nwin,X,A,w1,300,500\nwin,X,A,w2,400,1000\nwin,X,A,w3,390,900\n",
        texts: &[
            "refused returns 11 1\n",
            "fault s all nolist\n",
            "fault s all nolist\n",
            "total 2\nparty A 2 0\nlist X A 2 0\n",
            "total 2\nparty A 2 1\nlist X A 2 1\n",
            "total 2\nparty A 2 2\nlist X A 2 2\n",
            "total 2\nparty A 2 2\nlist X A 2 2\nopen w2\n",
        ],
    },
    Row {
        call: Call::Count,
        book: COVERING,
        returns: "kind,land,party,a,b,c\nland,X,,1000,,\nparty,,A,0,,\nlist,X,A,10,10,\nwin,X,A,w1,300,500\nwin,X,A,w2,400,1000\nwin,X,A,w3,360,900\nlot,X,A,seats,w3,\nlot,X,A,seats,w2,\n",
        texts: &[
            "refused returns 11 1\n",
            "fault s all nolist\n",
            "fault s all nolist\n",
            "total 2\nparty A 2 0\nlist X A 2 0\n",
            "total 2\nparty A 2 1\nlist X A 2 1\n",
            "total 2\nparty A 2 2\nlist X A 2 2\n",
            "fault seats list X A tie 1 w2 w3\n",
            "fault seats list X A tie 1 w2 w3\n",
            "total 2\nparty A 2 2\nlist X A 2 2\nopen w2\n",
        ],
    },
];
