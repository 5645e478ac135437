//! The texts of this crate: a row each, English and then German.

pub(crate) use rows::*;

#[rattlefmt::skip]
mod rows {
    use crate::message::Message;

    pub(crate) const HELP: Message = ("  = help: ", "  = Hilfe: ");
    pub(crate) const OR: Message = (" or ", " oder ");
    pub(crate) const AND: Message = (" and ", " und ");
    pub(crate) const MEANT: Message = ("did you mean `{name}`?", "ist `{name}` gemeint?");
}
