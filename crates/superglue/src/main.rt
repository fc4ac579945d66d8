//! The program: hands its words, standard input and standard output to the call of `sg_top`, and ends with the number of the
//! status that is answered. `terminal` tells on standard error how far an exploration has come.
#![tactic(auto)]

mod terminal;

use crate::terminal::Terminal;
use sg_top::{OpenGate, Status, StdSink, StdSource, superglue};
use std::env;
use std::io::Error;
use std::process::ExitCode;

// Does with standard input what the words say, and ends with the number of the status.
fn main(rt: HostRuntime) -> ExitCode {
    let status = match words(&rt) {
        Ok(words) => {
            let mut input = StdSource::new(rt.stdin());
            let mut output = StdSink::new(rt.stdout());
            let answer = superglue(
                &rt,
                rt.alloc(),
                &words,
                &mut input,
                &mut output,
                &OpenGate,
                &Terminal::new(&rt),
            );
            answer.status
        }
        Err(error) => Status::without_words(error.kind()),
    };
    ExitCode::from(status.number())
}

// The words after the program's name.
fn words(rt: &HostRuntime) -> Result<Vec<String>, Error> {
    Ok(env::args(rt)?.skip(1).collect(rt.alloc())?)
}
