//! Lists of lock paths before points.

/// The lists of a section.
#[derive(Drop)]
pub struct SectionLists {
    /// For each point, in the order of the text, the lock paths that are acquired before it, as indexes into the
    /// section's lock paths.
    pub before: Vec<Vec<u8>>,
}

/// The lists of a program.
#[derive(Drop)]
pub struct Placed {
    /// The lists of each section, in the order of [`core_lang::typed::Typed::sections`].
    pub sections: Vec<SectionLists>,
}
