// The thread service.
ghost use Rattle.std.specs.Prelude.{◌≡◌, ◌^◌, ◌<◌, ℕ, true, false, [], ◌∷◌, length, IsSome};
ghost use Rattle.std.specs.Option.{option_map, option_copied};
ghost use Rattle.sg_facts.specs.Facts.{facts_of};
ghost use Rattle.sg_facts.specs.sg_base.declared.value.Value.TheVariants.{Word};
ghost use Rattle.sg_facts.specs.declared.shape.Kind.TheVariants.{Word as IsWord};
ghost use Rattle.sg_facts.specs.Kinds.{MayAsk, kinds_fit};
ghost use Rattle.sg_facts.specs.Track.{row_at, arg_at};
ghost use Rattle.sg_facts.specs.Inside.Rows.{has_child};
ghost use Rattle.sg_slots.specs.Slots.{row_with, object_of, rows_of};
ghost use Rattle.sg_slots.specs.Decide.{Decides};
ghost use Rattle.sg_sched.specs.Laws.SchedWalkLaw.{sched_walk_goes_on};
ghost use Rattle.sg_sched.specs.SchedFacts.{sched_facts};
ghost use Rattle.sg_sched.specs.SchedTable.{sched_table, sched_parts, next_rank, first_ready};
ghost use Rattle.sg_sched.specs.SchedRow.{thread_body};
ghost use Rattle.sg_sched.specs.Laws.SchedAlikeLaw.{sched_answers_alike};
ghost use Rattle.sg_sched.specs.Laws.SchedBlockedLaw.{sched_blocked_stays};
ghost use Rattle.sg_sched.specs.Laws.SchedShapeLaw.{sched_shape_allows, sched_counts_slowly};
ghost use Rattle.sg_sched.specs.SchedSound.{IsSchedSound};
ghost use Rattle.sg_sched.specs.Laws.SchedSoundLaw.{sched_answers_and_keeps};
ghost use Rattle.sg_sched.specs.Inside.SchedDecision.{on_create, on_yield, on_sleep, on_wakeup, on_thread_wait, on_next, on_place};

use crate::Thread;
use crate::functions::{CREATE, NEXT, PLACE, SLEEP, WAIT, WAKEUP, YIELD};
use crate::shape::sched_shape;
use sg_facts::{Call, Code, LentValue, NoMemory, Outcome, Path, Service, Shape, Stops};
use sg_slots::{Decision, Queue};
use std::alloc::Global;

/// The thread service: it makes and ends threads, puts them to sleep, wakes them, and tells which is next; who waits for
/// a thread that is asleep is blocked.
#[derive(Debug, Drop)]
pub struct SchedService {
    queue: Queue<Thread>,
}

impl SchedService {
    /// The shape of the service.
    pub fn shape() -> Shape
        ensures { facts_of result ≡ sched_facts }
    {
        sched_shape()
    }

    ghost use Rattle.sg_sched.specs.SchedObject.{sched_object};

    /// The thread of an id, lent; None where no thread has it. Ids count from 1.
    pub fn thread(&self, id: u64) -> Option<&Thread>
        ensures row { row_at (sched_object self.now).rows id ≡ option_map (λ t. row_with id (thread_body t)) (option_copied result) }
        ensures id { IsSome result → 0 < id }
        ensures childless { (parent : ℕ) → 0 < parent → has_child (sched_object self.now).rows parent ≡ false }
    {
        self.queue.get(id)
    }

    /// The number of threads.
    pub fn live(&self) -> usize
        ensures { result ≡ length (sched_object self.now).rows }
    {
        self.queue.len()
    }
}

impl Service for SchedService {
    ghost use Rattle.sg_sched.specs.SchedObject.{sched_object};

    type Image = ();

    ghost facts = { sched_facts };

    ghost object = { sched_object };

    ghost ask = { sched_table };

    ghost parts = { sched_parts };

    ghost sound = { IsSchedSound };

    ghost answers_and_keeps = { sched_answers_and_keeps };

    ghost answers_alike = { sched_answers_alike };

    ghost walk_goes_on = { sched_walk_goes_on };

    ghost blocked_stays = { sched_blocked_stays };

    ghost shape_allows = { sched_shape_allows };

    ghost counts_slowly = { sched_counts_slowly };

    fn fresh(alloc: Global, _: ()) -> Self {
        SchedService {
            queue: Queue::new(alloc),
        }
    }

    fn invoke<T: Stops>(&mut self, alloc: Global, stops: &mut T, call: &Call) -> Outcome {
        let decision = decide(&self.queue, call);
        self.queue.apply(alloc, stops, call.desc, decision)
    }

    fn load(&mut self, _: Global, _: &Path, _: &[u8]) -> Result<(), NoMemory> {
        Ok(())
    }
}

// What to do with a call.
fn decide(queue: &Queue<Thread>, call: &Call) -> Decision<Thread>
    requires { MayAsk sched_facts (object_of thread_body queue.now) call.now }
    ensures { Decides sched_facts sched_table sched_parts thread_body queue.now call.now result }
{
    if call.fun == CREATE {
        return create(queue, call.client, argument(call));
    }
    if call.fun == NEXT {
        return next(queue);
    }
    match queue.get(call.desc) {
        Some(thread) => match call.fun {
            YIELD => give_way(queue, thread),
            SLEEP => sleep(thread),
            WAKEUP => wake(thread),
            WAIT => wait(thread),
            PLACE => place(thread, argument(call)),
            _ => Decision::Remove,
        },
        None => unreachable!(),
    }
}

// The number that a call takes beside its descriptor.
fn argument(call: &Call) -> u64
    requires { kinds_fit (IsWord ∷ []) call.now.args ≡ true }
    ensures { arg_at call.now 0 ≡ Word result }
{
    match call.args.get(0) {
        Some(LentValue::Word(number)) => number,
        _ => unreachable!(),
    }
}

// The id of the ready thread that goes before all others; None where no thread is ready.
fn first_thread(queue: &Queue<Thread>) -> Option<u64>
    ensures { result ≡ option_map (λ r. r.id) (first_ready (rows_of thread_body queue.now.entries)) }
{
    queue.first()
}

// One more than the greatest rank, 1 where there is no thread.
fn rank_at_end(queue: &Queue<Thread>) -> u64
    requires { next_rank (rows_of thread_body queue.now.entries) < 2 ^ 64 }
    ensures { result ≡ next_rank (rows_of thread_body queue.now.entries) }
{
    match queue.greatest() {
        Some(rank) => rank + 1,
        None => 1,
    }
}

// Makes a ready thread, at the end of the queue.
fn create(queue: &Queue<Thread>, client: u8, prio: u64) -> Decision<Thread>
    requires { next_rank (rows_of thread_body queue.now.entries) < 2 ^ 64 }
    ensures { result ≡ on_create client prio (next_rank (rows_of thread_body queue.now.entries)) }
{
    let rank = rank_at_end(queue);
    Decision::Make {
        entry: Thread {
            creator: client,
            prio,
            rank,
            ready: true,
        },
        word: Some(rank),
    }
}

// Puts a thread at the end of the queue.
fn give_way(queue: &Queue<Thread>, thread: &Thread) -> Decision<Thread>
    requires { next_rank (rows_of thread_body queue.now.entries) < 2 ^ 64 }
    ensures { result ≡ on_yield thread.now (next_rank (rows_of thread_body queue.now.entries)) }
{
    let rank = rank_at_end(queue);
    Decision::Set {
        entry: Thread { rank, ..*thread },
        word: Some(rank),
    }
}

// Puts a thread to sleep.
fn sleep(thread: &Thread) -> Decision<Thread>
    ensures { result ≡ on_sleep thread.now }
{
    Decision::Set {
        entry: Thread {
            ready: false,
            ..*thread
        },
        word: None,
    }
}

// Makes a thread ready again.
fn wake(thread: &Thread) -> Decision<Thread>
    ensures { result ≡ on_wakeup thread.now }
{
    Decision::Set {
        entry: Thread {
            ready: true,
            ..*thread
        },
        word: None,
    }
}

// Waits until a thread is ready.
fn wait(thread: &Thread) -> Decision<Thread>
    ensures { result ≡ on_thread_wait thread.now }
{
    if thread.ready {
        Decision::Keep {
            desc: 0,
            word: None,
        }
    } else {
        Decision::Block
    }
}

// Tells which thread is next.
fn next(queue: &Queue<Thread>) -> Decision<Thread>
    ensures { result ≡ on_next (option_map (λ r. r.id) (first_ready (rows_of thread_body queue.now.entries))) }
{
    match first_thread(queue) {
        Some(desc) => Decision::Keep { desc, word: None },
        None => Decision::Refuse(Code::NotFound),
    }
}

// Gives a thread a rank.
fn place(thread: &Thread, rank: u64) -> Decision<Thread>
    ensures { result ≡ on_place thread.now rank }
{
    Decision::Set {
        entry: Thread { rank, ..*thread },
        word: None,
    }
}
