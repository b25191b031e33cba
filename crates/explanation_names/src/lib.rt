//! Name suggestions: which declared name may be meant by an unknown one, and other facts about names for notes.
//!
//! - [`near_name`]: the nearest name that could be in its place. `specs/NearNames.antt` defines which could, and when
//!   two names are near.
//! - [`is_near`]: whether two names are near.
//! - [`declared`]: the name that a declaration declares.
//! - [`laws`]: the search covers every place where a name is unknown.
//! - [`name_spaces`]: the names that must differ from each other. [`same_names`]: which of two equal ones is the first.
//! - [`tokens_there`]: the token at a place, and its name.
//! - [`null_meant`]: whether `null` may be meant by a name.
//! - [`passed_members`]: the member that an annotation passes.
//! - [`vars`]: the section that a place is in, its statements, and which `var` a name is.
//! - [`missing_returns`]: which section lacks its `return`.
//! - `edit_distance`: the edit distance of two names.
//!
//! `specs/Sought.antt` defines what each name of a program is looked up as, `Locals` which locals are in scope,
//! `Members` which members are searched, `NameSpaces` which names must differ, and which of two is the first,
//! `TokensThere` the tokens at a place, `NullMeant` whether `null` may be meant, `PassedMembers` what an annotation
//! passes, `Vars` which `var` a name is, `MissingReturns` which section lacks its `return`, and `FirstBy` the first of
//! a list. What the code finds is defined in `specs/Working/UsesFound.antt`, `Found.antt`, `PassedFound.antt` and
//! `VarsFound.antt`; `proofs/` connects the two.
#![tactic(auto)]

mod declarations;
mod edit_distance;
mod expressions;
mod found;
pub mod laws;
mod members;
pub mod missing_returns;
pub mod name_spaces;
mod nearest;
pub mod null_meant;
pub mod passed_members;
pub mod same_names;
mod search;
mod sought;
mod statements;
pub mod tokens_there;
pub mod vars;

pub use nearest::{is_near, near_name};
pub use sought::declared;
