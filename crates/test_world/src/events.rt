// Events of a world, as lines tell them.
ghost use Rattle.std.specs.Prelude.{[], ◌∷◌, IfOk};
ghost use Rattle.sg_facts.specs.Kinds.{AreWords};

use crate::run::Unmade;
use crate::words::{Written, first_word};
use sg_facts::{Args, Text, TextFault, Value};
use std::alloc::Global;

/// An event of a world.
#[derive(Clone, Copy, Debug)]
pub enum Event<'a> {
    /// A client offers a call, as `offer 1 lock_take 1`.
    Offer(u8, Asked<'a>),
    /// A client takes a step, and it is told what that does, as `step 1 served`.
    Step(u8, &'a str),
    /// A client withdraws its call, as `withdraw 1`.
    Withdraw(u8),
    /// A client leaves, as `leave 1`.
    Leave(u8),
}

impl<'a> Event<'a> {
    /// The event that a line tells; None where it tells none.
    pub fn read(line: &'a str) -> Option<Self> {
        let (what, behind) = first_word(line);
        let (client, told) = first_word(behind);
        let client = client.parse().ok()?;
        match (what, told) {
            ("offer", call) => Some(Event::Offer(client, Asked::read(call)?)),
            ("step", told) => Some(Event::Step(client, told)),
            ("withdraw", "") => Some(Event::Withdraw(client)),
            ("leave", "") => Some(Event::Leave(client)),
            _ => None,
        }
    }
}

/// A call that is offered, as `tsplit 0 "a"`: the function, by its name or number, its descriptor or parent, 0 for none, and its
/// arguments.
#[derive(Clone, Copy, Debug)]
pub struct Asked<'a> {
    pub fun: &'a str,
    pub desc: u64,
    pub args: &'a str,
}

impl<'a> Asked<'a> {
    /// The call that a text tells; None where it tells none.
    pub fn read(text: &'a str) -> Option<Self> {
        let (fun, behind) = first_word(text);
        let (desc, args) = first_word(behind);
        let desc = desc.parse().ok()?;
        Some(Asked { fun, desc, args })
    }
}

/// The arguments of a call, as a text has them.
#[tactic(auto, using(crate::proofs::Values::words_and_one))]
pub fn args_of(alloc: Global, text: &str) -> Result<Args, Unmade>
    ensures { IfOk result AreWords }
{
    let mut args = Args::new(alloc);
    for word in text.split_whitespace() {
        args.push(value_of(alloc, word)?)?;
    }
    Ok(args)
}

// An argument as a value.
fn value_of(alloc: Global, word: &str) -> Result<Value, Unmade>
    ensures { IfOk result (λ value. AreWords (value ∷ [])) }
{
    match Written::read(word) {
        Some(Written::Word(number)) => Ok(Value::Word(number)),
        Some(Written::Text(text)) => match Text::new(alloc, text.as_bytes()) {
            Ok(text) => Ok(Value::Text(text)),
            Err(TextFault::NoMemory) => Err(Unmade::NoMemory),
            Err(_) => Err(Unmade::Unread),
        },
        Some(Written::Desc(_)) | None => Err(Unmade::Unread),
    }
}
