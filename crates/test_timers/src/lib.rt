//! Timers, tried from outside: tables of calls with their answers, and stops at each part.
#![tactic(auto)]

#[cfg(test)]
mod timers;
