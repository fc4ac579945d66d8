// Inputs that are ready, with the service of their interface.
ghost use Rattle.std.specs.Prelude.{ℕ, List, IfOk};
ghost use Rattle.sg_judge.specs.AnyInputs.{IsAcceptedAs};
ghost use Rattle.sg_top.specs.Answer.{services};
ghost use Rattle.sg_top.specs.Inside.Plays.{IsServedAs};
ghost use Rattle.sg_top.specs.Inside.Ready.{IsAccepted, IsServedInput, IsServedRun};

use crate::services::{kind_of, shapes};
use sg_judge::{AnyInterface, History, Read, Script, read_any_input, read_any_run};
use sg_load::Accepted;
use sg_multi::{NoMemory, Served};
use std::alloc::Global;

/// An input that is ready to be played: its interface, which is accepted, the service of that, and its script.
#[derive(Debug, Drop)]
pub struct ReadyInput {
    pub served: Served,
    pub accepted: Accepted,
    pub script: Script,
}

/// An input that is ready to be judged: its interface, which is accepted, the service of that, and the history that it prints.
#[derive(Debug, Drop)]
pub struct ReadyRun {
    pub served: Served,
    pub accepted: Accepted,
    pub history: History,
}

/// An input, ready to be played; or the line that refuses it.
pub fn ready_input(alloc: Global, bytes: &[u8]) -> Result<Read<ReadyInput>, NoMemory>
    ensures { IfOk result (IsServedInput bytes.now) }
{
    match read_any_input(alloc, bytes, &shapes())? {
        Read::Ready((any, script)) => {
            let served = served_of(&any);
            let AnyInterface { accepted, .. } = any;
            Ok(Read::Ready(ReadyInput {
                served,
                accepted,
                script,
            }))
        }
        Read::Refused(line) => Ok(Read::Refused(line)),
    }
}

/// An input with a printed run, ready to be judged; or the line that refuses it.
pub fn ready_run(alloc: Global, bytes: &[u8]) -> Result<Read<ReadyRun>, NoMemory>
    ensures { IfOk result (IsServedRun bytes.now) }
{
    match read_any_run(alloc, bytes, &shapes())? {
        Read::Ready((any, history)) => {
            let served = served_of(&any);
            let AnyInterface { accepted, .. } = any;
            Ok(Read::Ready(ReadyRun {
                served,
                accepted,
                history,
            }))
        }
        Read::Refused(line) => Ok(Read::Refused(line)),
    }
}

/// The service of an interface that is accepted.
pub fn served_of(any: &AnyInterface) -> Served
    requires { IsAccepted any.now }
    ensures { (text : List ℕ) → IsAcceptedAs services text any.now.accepted any.now.own → IsServedAs text any.now.accepted result }
{
    match any.own {
        Some(description) => Served::Own(description),
        None => Served::BuiltIn(kind_of(any.accepted.interface())),
    }
}
