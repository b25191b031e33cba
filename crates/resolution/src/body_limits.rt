//! The limits of parameters and locals.

use source::limits;

/// The most parameters and locals of a section or a helper.
#[derive(Clone, Copy, Debug, PartialEq, Eq)]
pub struct BodyLimits {
    /// The parameters.
    pub parameters: usize,
    /// The locals, parameters included.
    pub locals: usize,
}

/// The limits of a section.
pub const SECTION_LIMITS: BodyLimits = BodyLimits {
    parameters: limits::PARAMETER_LIMIT,
    locals: limits::LOCAL_LIMIT,
};

/// The limits of a helper: no source is long enough to exceed them.
pub const HELPER_LIMITS: BodyLimits = BodyLimits {
    parameters: limits::SOURCE_LIMIT,
    locals: limits::SOURCE_LIMIT,
};
