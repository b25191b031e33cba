//! The commit history: what each finished section read, wrote, returned and printed, in the order in which they ended.
//!
//! - [`laws::legal_is_serial`]: where each entry is true and read what the ones before it left, the calls, run whole
//!   one after another, end, print and leave the cells as the entries say.
//! - [`laws::commuting`]: entries that don't write a cell leave its value.
//! - [`entries::History`]: the entries, in order, with their lists in a few arrays.
//! - [`kept::EntryRef`]: a finished section whose lists are lent.
//!
//! `specs/` defines finished sections as data, which lists of them are legal and when one is true (`Commits`), what the
//! laws claim (`Laws`), and a history as a value and for which entries it has room (`Histories`). `Arrays` and `Lists`
//! only say what the code relies on; nobody has to believe them.
#![tactic(auto)]

pub mod entries;
pub mod kept;
pub mod laws;
mod lists;
