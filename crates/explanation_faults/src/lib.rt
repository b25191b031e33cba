//! Notes on faults of names, types, counts, annotations, bases, limits, `init`s and returns, and further faults.
//!
//! - [`fault_told`]: the notes on a fault, and the further faults: [`FaultTold`]. `specs/TextNotes.antt` and
//!   `specs/FaultNotes.antt` say which notes are true, and which faults must have one. `specs/FurtherFaults.antt` says which
//!   further faults there are.
//! - `specs/ReasonNotes.antt`: why a fault is one, in words. `specs/LocksAtHand.antt`: a lock for what does not have one.
//!   `specs/MissingInits.antt`: the missing `init`. `specs/VarNotes.antt`: the note on the `var` that a name is.
//!   `specs/LimitsPassed.antt`, `AmountsPassed.antt`, `HelperLimits.antt` and `PathsPassed.antt`: the exceeded limit.
//!   `specs/Inits.antt`: the first `init` of a field. The findings on names are defined in `explanation_names`.
//! - `specs/Working/LimitsFound.antt`, `AmountsFound.antt`, `HelpersFound.antt`, `LocksFound.antt`, `NullsFound.antt` and
//!   `VarsFound.antt` define which of several candidates the code finds. `proofs/` connects this to the definitions above.
#![tactic(auto)]

mod amounts_passed;
mod first_inits;
mod further;
mod helper_limits;
mod limits_passed;
mod lock_paths;
mod locks_at_hand;
mod missing_inits;
mod noted;
mod reasons;
mod text_notes;
mod tree_notes;

pub use text_notes::{FaultTold, fault_told};
