//! Tests of the program: of the call that it makes, of its inputs and of what it prints. As a program it is the program itself,
//! whose stored run here is one that is refused.
//!
//! - `answers`: what commands answer, as tables of inputs, statuses and outputs
//! - `limits`: the longest inputs and scripts, and longer ones
//! - `calls`: other words, a run as it is given, and the numbers of statuses
//! - `inputs`: where inputs are divided, and in which order they are refused
//! - `versions`: texts of both versions, what they are upgraded to, and plays under them
#![tactic(auto)]

#[cfg(test)]
mod answers;
#[cfg(test)]
mod calls;
#[cfg(test)]
mod inputs;
#[cfg(test)]
mod limits;
#[cfg(test)]
mod versions;

use sg_top::{NoProgress, OpenGate, Status, StdSink, StdSource, superglue};
use std::env;
use std::io::Error;
use std::process::ExitCode;

// Does with standard input what the words say, and ends with the number of the status.
fn main(rt: HostRuntime) -> ExitCode {
    let status = match words(&rt) {
        Ok(words) => {
            let mut input = StdSource::new(rt.stdin());
            let mut output = StdSink::new(rt.stdout());
            let answer = superglue(
                &rt,
                rt.alloc(),
                &words,
                &mut input,
                &mut output,
                &OpenGate,
                &NoProgress,
            );
            answer.status
        }
        Err(error) => Status::without_words(error.kind()),
    };
    ExitCode::from(status.number())
}

// The words after the program's name.
fn words(rt: &HostRuntime) -> Result<Vec<String>, Error> {
    Ok(env::args(rt)?.skip(1).collect(rt.alloc())?)
}
