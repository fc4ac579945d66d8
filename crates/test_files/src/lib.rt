//! Files, tried from outside: one descriptor, at each place and number of bytes where the answer turns, and names and paths.
#![tactic(auto)]

#[cfg(test)]
mod files;
#[cfg(test)]
mod paths;
