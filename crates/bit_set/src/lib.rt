//! Sets of small numbers, such as helpers or lock classes: [`set::BitSet`]. `has_number` of `specs/Working/Sets.antt`
//! says which numbers are in a set.
#![tactic(auto)]

pub mod set;
