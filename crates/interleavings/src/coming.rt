//! What the next step of a thread does.

/// What the next step of a thread does.
#[derive(Clone, Copy, PartialEq, Eq, Debug)]
pub enum Coming {
    /// It begins the call of its script with this number, if there is one. It has no open section.
    Call(usize),
    /// It runs an instruction of its open section.
    Instruction {
        /// The section, an index into the program's sections.
        section: usize,
        /// The instruction's index in the section's code.
        place: usize,
    },
    /// It asks for a lock, or ends its section. Also for an unknown thread.
    Other,
}
