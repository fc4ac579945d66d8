// The limits of an input, most of them in bytes.

/// The greatest number of bytes of an interface.
pub const MOST_INTERFACE: usize = 65_536;

/// The greatest number of bytes of the line that divides an input: `%%`, CR and LF.
pub const MOST_DIVIDER: usize = 4;

/// The greatest number of bytes of a script.
pub const MOST_SCRIPT: usize = 4_194_304;

/// The greatest number of bytes of an input.
pub const MOST_INPUT: usize = MOST_INTERFACE + MOST_DIVIDER + MOST_SCRIPT;

/// The greatest number of services that a script is played over.
pub const MOST_SERVICES: usize = 6;

/// The greatest number of bytes of an input for several services: seven interfaces and a script.
pub const MOST_MULTI_INPUT: usize = 7 * MOST_INTERFACE + MOST_SCRIPT;

/// The greatest number of bytes of a printed run.
pub const MOST_RUN: usize = 67_108_864;

/// The greatest number of bytes of an input whose second text is a printed run.
pub const MOST_RUN_INPUT: usize = MOST_INTERFACE + MOST_DIVIDER + MOST_RUN;
