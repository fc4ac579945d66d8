//! Scripts, read for the standard interfaces.
//!
//! The tests:
//! - `answers`: what is answered on a script (`answer`, `try_each`)
//! - `flaws`: what is first wrong with a script, by the tables `calls`, `parts`, `numbers` and `syntax`, one for each kind of
//!   flaw, and `order`, with several flaws in one script
//! - `limits`: as many calls, stops and bytes of a text as a script may have, and one more
//! - `meanings`: what scripts stand for
//! - `parses`: which texts are scripts of the grammar, and what their parts keep
//! - `shapes`: the shapes of the services that scripts are read for
#![tactic(auto)]

#[cfg(test)]
mod answers;
#[cfg(test)]
mod calls;
#[cfg(test)]
mod flaws;
#[cfg(test)]
mod limits;
#[cfg(test)]
mod meanings;
#[cfg(test)]
mod numbers;
#[cfg(test)]
mod order;
#[cfg(test)]
mod parses;
#[cfg(test)]
mod parts;
#[cfg(test)]
mod shapes;
#[cfg(test)]
mod syntax;
