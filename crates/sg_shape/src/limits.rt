// How large a text may be that declares a shape by itself.

/// The greatest number of parameters of a function, the caller among them.
pub const MOST_PARAMS: usize = 256;

/// The greatest number of rules of a function.
pub const MOST_RULES: usize = 32;
