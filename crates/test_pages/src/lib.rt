//! Pages, tried from outside: pages in their places, a subtree of a thousand, and stops at each part.
#![tactic(auto)]

#[cfg(test)]
mod pages;
