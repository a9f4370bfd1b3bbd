//! The command `xid`: explains an information field of XID that is given in hexadecimal digits. A pure function of the words
//! and of the folder that are handed in. [`xid_words`] reads the words, and [`xid`] does what they say.

mod command;
mod digits;
mod offer_line;
mod words;

pub use command::xid;
pub use words::xid_words;
