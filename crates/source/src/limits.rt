//! The limits of source texts, of programs and of their runs. `specs/Limits` has the same numbers for definitions.

/// The most bytes of a source text.
pub const SOURCE_LIMIT: usize = 1_048_576;

/// The most bytes of a line of a steps file or of a history.
pub const LINE_LIMIT: usize = 1_024;

/// The most bytes of a name.
pub const NAME_LIMIT: usize = 64;

/// The most opening signs that are open at once.
pub const NESTING_LIMIT: u32 = 64;

/// The most structs of a program.
pub const STRUCT_LIMIT: usize = 64;

/// The most members of a struct.
pub const MEMBER_LIMIT: usize = 32;

/// The most final references that an annotation passes through.
pub const FINAL_LIMIT: usize = 3;

/// The most lock classes of a program.
pub const CLASS_LIMIT: usize = 128;

/// The most objects of a program, the members of all pools together.
pub const OBJECT_LIMIT: usize = 65_536;

/// The most cells of a program: one for each global, each element of an array and each field of an object.
pub const CELL_LIMIT: usize = 262_144;

/// The most sections and helpers of a program together.
pub const SECTION_LIMIT: usize = 256;

/// The most threads of a program.
pub const THREAD_LIMIT: usize = 64;

/// The most calls that all threads make together.
pub const CALL_LIMIT: usize = 100_000;

/// The most parameters of a section.
pub const PARAMETER_LIMIT: usize = 8;

/// The most locals of a section, parameters included. The limit holds with and without the locals of its calls.
pub const LOCAL_LIMIT: usize = 64;

/// The most points that the calls of a section bring to it.
pub const POINT_LIMIT: usize = 65_536;

/// The greatest depth of the calls of a section.
pub const DEPTH_LIMIT: usize = 8;

/// The most lock paths of a section.
pub const PATH_LIMIT: usize = 64;

/// The most numbers that one run of a section prints.
pub const PRINT_LIMIT: usize = 256;

/// The most steps of a steps file, those of all threads together.
pub const STEP_LIMIT: u64 = 10_000_000;
