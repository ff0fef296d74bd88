// The limits of the language, of terms and of a session. Contracts say the numbers themselves.

/// Bytes of a specification, and of a script.
pub const TEXT_BYTES: usize = 1_048_576;

/// Bytes of a saved file.
pub const FILE_BYTES: usize = 4_194_304;

/// Commands of a script.
pub const COMMANDS: usize = 10_000;

/// Files that the `load` commands of one run fetch.
pub const LOADS: u32 = 64;

/// Buffers of a session.
pub const BUFFERS: usize = 64;

/// Steps that a buffer can undo.
pub const STEPS: usize = 256;

/// Phyla of a specification, without BOOL, INT and STR.
pub const PHYLA: usize = 512;

/// Operators of a specification.
pub const OPERATORS: usize = 2_048;

/// Arguments of an operator.
pub const ARITY: usize = 16;

/// Written attributes of a phylum.
pub const ATTRIBUTES: usize = 32;

/// Locals of an operator.
pub const LOCALS: usize = 32;

/// Functions of a specification.
pub const FUNCTIONS: usize = 1_024;

/// Parameters of a function.
pub const PARAMETERS: usize = 16;

/// Transformations of a specification.
pub const TRANSFORMS: usize = 1_024;

/// Schemes of an operator, in each view.
pub const SCHEMES: usize = 16;

/// Input productions of a specification.
pub const PRODUCTIONS: usize = 1_024;

/// Symbols of an input production.
pub const SYMBOLS: usize = 16;

/// Views of a specification.
pub const VIEWS: usize = 16;

/// Nodes of an expression or pattern on one path.
pub const EXPRESSION_DEPTH: u8 = 128;

/// LR(0) states of a grammar.
pub const STATES: usize = 65_536;

/// Bytes of a name in a specification, of a buffer's name and of a file's name in a script.
pub const NAME_BYTES: usize = 64;

/// Nodes of a term in a buffer.
pub const NODES: usize = 65_536;

/// Nodes of a term in a buffer on one path.
pub const DEPTH: usize = 1_024;

/// Size of a value.
pub const VALUE_SIZE: u32 = 65_536;

/// Depth of a value.
pub const VALUE_DEPTH: u32 = 1_024;

/// Units of fuel of one evaluation.
pub const FUEL: u32 = 100_000;

/// Nodes of expressions that one evaluation may have entered and not left.
pub const NESTING: u32 = 2_048;

/// Cells of a page.
pub const CELLS: usize = 1_048_576;
