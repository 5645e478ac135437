//! The inputs of tests, and what they come to.

/// A book, and what `steps` writes for it: eight seats for three lists, by each of three methods.
pub type Method = (&'static str, &'static str);

pub const THREE_METHODS: [Method; 3] = [
    (
        "rulebook 1; law \"t\"; house 8; eligible all; stage s = split(house, counted, jefferson); seats s keep;",
        "seat s all X/A 1 1 100/1\nseat s all X/B 1 2 80/1\nseat s all X/A 2 3 100/2\nseat s all X/B 2 4 80/2\nseat s all X/A 3 5 100/3\nseat s all X/C 1 6 30/1\nseat s all X/B 3 7 80/3\nseat s all X/A 4 8 100/4\nbounds s all 100/4 100/5\ntotal 8\nparty A 4 0\nparty B 3 0\nparty C 1 0\nlist X A 4 0\nlist X B 3 0\nlist X C 1 0\n",
    ),
    (
        "rulebook 1; law \"t\"; house 8; eligible all; stage s = split(house, counted, webster); seats s keep;",
        "seat s all X/A 1 1 200/1\nseat s all X/B 1 2 160/1\nseat s all X/A 2 3 200/3\nseat s all X/C 1 4 60/1\nseat s all X/B 2 5 160/3\nseat s all X/A 3 6 200/5\nseat s all X/B 3 7 160/5\nseat s all X/A 4 8 200/7\nbounds s all 200/7 160/7\ntotal 8\nparty A 4 0\nparty B 3 0\nparty C 1 0\nlist X A 4 0\nlist X B 3 0\nlist X C 1 0\n",
    ),
    (
        "rulebook 1; law \"t\"; house 8; eligible all; stage s = split(house, counted, hamilton); seats s keep;",
        "seat s all X/A 1 0 -\nseat s all X/A 2 0 -\nseat s all X/A 3 0 -\nseat s all X/B 1 0 -\nseat s all X/B 2 0 -\nseat s all X/B 3 0 -\nseat s all X/C 1 0 -\nseat s all X/A 4 1 rest 170\ntotal 8\nparty A 4 0\nparty B 3 0\nparty C 1 0\nlist X A 4 0\nlist X B 3 0\nlist X C 1 0\n",
    ),
];

/// Their returns.
pub const THREE_LISTS: &str =
    "kind,land,party,a,b,c\nland,X,,1000,,\nparty,,A,0,,\nparty,,B,0,,\nparty,,C,0,,\nlist,X,A,100,100,\nlist,X,B,80,80,\nlist,X,C,30,30,\n";

/// What `count` writes for each of the books.
pub const THREE_LISTS_TABLE: &str =
    "total 8\nparty A 4 0\nparty B 3 0\nparty C 1 0\nlist X A 4 0\nlist X B 3 0\nlist X C 1 0\n";

/// A book of one stage, which keeps its winners.
pub const FIRST_BOOK: &str =
    "rulebook 1; law \"t\"; house 8; eligible all; stage pool = less(house, sum(outside, all)); seats winners keep;";

/// Its returns: two winners, one of whom has no party.
pub const FIRST_RETURNS: &str =
    "kind,land,party,a,b,c\nland,X,,1000,,\nparty,,A,0,,\nlist,X,A,10,10,\nwin,X,A,w1,5,9\nwin,X,,w2,5,9\n";

pub const FIRST_TABLE: &str = "total 2\nparty A 1 1\nlist X A 1 1\nsingle w2\n";

/// An election under five laws: a house of ten, two Länder, two parties, and three winners of the first party in the second Land.
pub const FIVE_LAWS: &str =
    "kind,land,party,a,b,c\nhouse,,,10,,\nland,X,,800,,\nland,Y,,200,,\nparty,,A,0,,\nparty,,B,0,,\nlist,X,A,600,600,\nlist,X,B,200,200,\nlist,Y,A,100,100,\nlist,Y,B,100,100,\nwin,Y,A,y1,40,100\nwin,Y,A,y2,50,100\nwin,Y,A,y3,45,100\n";

/// A tie of two lists, without a lot.
pub const TIED_BOOK: &str =
    "rulebook 1; law \"t\"; house 2; eligible all; stage s = split(house, counted, webster); seats s keep;";

pub const TIED_RETURNS: &str =
    "kind,land,party,a,b,c\nland,X,,1000,,\nparty,,A,0,,\nparty,,B,0,,\nlist,X,A,30,30,\nlist,X,B,10,10,\n";

/// Three winners of a list, two of them tied, and a lot that names these.
pub const DRAWN_WINNERS: &str =
    "kind,land,party,a,b,c\nland,X,,1000,,\nparty,,A,0,,\nlist,X,A,10,10,\nwin,X,A,w1,300,500\nwin,X,A,w2,400,1000\nwin,X,A,w3,360,900\nlot,X,A,seats,w3,\nlot,X,A,seats,w2,\n";

/// Returns of one list.
pub const ONE_LIST: &str = "kind,land,party,a,b,c\nland,X,,1000,,\nparty,,A,0,,\nlist,X,A,10,10,\n";

/// A code file of one List slot and `halt 0`, and what a run of it writes for one list.
pub const HALT: &str = "SLC\x01\x00\x01\x03\x01\x00\x00\x00\x29\x00";

pub const HALT_TABLE: &str = "total 0\nparty A 0 0\nlist X A 0 0\n";

/// A code file of the stage `up` with slot 0, of four slots, one of each shape, and of instructions with operands of each width; and its listing.
pub const MIXED: &[u8] =
    b"SLC\x01\x01\x02up\x00\x04\x00\x01\x02\x03\x05\x00\x00\x00\x01\x01\x02\x01\x00\x00\x00\x00\x00\x00\x09\x07\x00\x00\x00\x2a\x05\x00\x03\x07\x23\xff\x02\x03\x04\x29\x00";

pub const MIXED_LISTING: &[u8] = b"0 set 1 258\n1 jmp 7\n2 at 5 3 7\n3 emit 255 2 3 4\n4 halt 0\n";
