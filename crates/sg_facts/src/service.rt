// The trait that every service meets.
ghost use Rattle.std.specs.Prelude.{◌≡◌, ℕ, OnOk, OnErr};
ghost use Rattle.sg_facts.specs.Facts.{Facts};
ghost use Rattle.sg_facts.specs.Object.{Object, empty_object};
ghost use Rattle.sg_facts.specs.Legal.{Table};
ghost use Rattle.sg_facts.specs.Kinds.{MayAsk};
ghost use Rattle.sg_facts.specs.Invoke.{Invokes, FitsRoom, loaded};
ghost use Rattle.sg_facts.specs.Laws.{AnswersAndKeeps, AnswersAlike, BlockedStays, ShapeAllows, CountsSlowly, WalkGoesOn};

use crate::Outcome;
use sg_base::{Call, NoMemory, Path, Stops};
use std::alloc::Global;
use std::fmt::Debug;

/// A service: it holds rows under ids of its own, and files, and answers calls by its table.
pub trait Service: Sized + Drop {
    /// What each boot makes a fresh value of: all that outlives a stop but storage. Nothing changes it.
    type Image: Copy + Debug;

    /// Its shape, as plain data.
    ghost facts: { Facts };

    /// What a value holds.
    ghost object: { Self → Object };

    /// What it answers a call at an object; None where the caller has to wait.
    ghost ask: { Table };

    /// The number of parts of an Ok of each function.
    ghost parts: { ℕ → ℕ };

    /// The objects that it can come to.
    ghost sound: { Object → Type 0 };

    /// A value that holds nothing. It takes no memory.
    fn fresh(alloc: Global, image: Self::Image) -> Self
        ensures { object result ≡ empty_object };

    /// Asks the service. It takes its memory before its first part, and asks a point before each part of an effect.
    /// The outcome says what has become of the value: a reply by the table with its change, `Blocks` exactly where the
    /// table has none, `Stopped` exactly where a part's point struck (nothing is known of the value then), or
    /// `NoMemory`, after which nothing changed.
    fn invoke<T: Stops>(&mut self, alloc: Global, stops: &mut T, call: &Call) -> Outcome
        requires { MayAsk facts (object self.old) call.now }
        ensures outcome { Invokes facts ask parts (object self.old) call.now
            (record { asked = T.asked stops.old; struck = T.struck stops.old }) result
            (object self.new) (record { asked = T.asked stops.new; struck = T.struck stops.new }) }
        ensures room { FitsRoom (object self.old) result }
        ensures plan { T.plan stops.new ≡ T.plan stops.old }
        ensures test { T.test (T.asked stops.old) (T.struck stops.old) (T.plan stops.old)
            → T.test (T.asked stops.new) (T.struck stops.new) (T.plan stops.new) };

    /// Sets a file whole; a service without files stays as it was. After `NoMemory` nothing changed.
    fn load(&mut self, alloc: Global, key: &Path, bytes: &[u8]) -> Result<(), NoMemory>
        ensures ok { OnOk result (object self.new ≡ loaded facts (object self.old) key.now bytes.now) }
        ensures err { OnErr result (object self.new ≡ object self.old) };

    /// It answers each call that the guard lets pass so that what it holds stays sound.
    ghost answers_and_keeps: { AnswersAndKeeps facts ask sound };

    /// It answers alike from whatever serves a call, under other ids too.
    ghost answers_alike: { AnswersAlike facts ask sound };

    /// The next call of a walk is answered Ok, and brings its row one step on.
    ghost walk_goes_on: { WalkGoesOn facts ask sound };

    /// Who is blocked stays so until a wake-up on the same descriptor, or its end.
    ghost blocked_stays: { BlockedStays facts ask sound };

    /// Its shape and its answers keep to what every shape allows.
    ghost shape_allows: { ShapeAllows facts ask };

    /// The words that it gives stay far from the end of their type.
    ghost counts_slowly: { CountsSlowly facts ask sound };
}
