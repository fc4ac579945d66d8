// The ids of the running service for those of the clients, and back.
ghost use Rattle.std.specs.Prelude.{◌≡◌, ◌==◌, ◌&&◌, ◌⊎◌, ◌+◌, ◌≤◌, ℕ, false, Some, IfOk, if◌then◌else◌};
ghost use Rattle.sg_facts.specs.Alike.{named, under_names};
ghost use Rattle.sg_name.specs.Names.{named_at, real_at};
ghost use Rattle.sg_name.specs.declared.named.Named.TheVariants.{Live};
ghost use Rattle.sg_replay.specs.Inside.Telling.{MayTell, MayTellDesc};
ghost use Rattle.sg_replay.specs.Serving.{IsDescTold, IsReplyTold, is_named_by, pairs_of, real_in};

use sg_facts::{Call, Good, NoMemory, Reply, TryCopy};
use sg_name::{Named, Names};
use std::alloc::Global;

/// The service id of an id; 0 where nothing stands for it.
pub(crate) fn real_of(names: &Names, id: u64) -> u64
    ensures { result ≡ named (pairs_of names.now.known) id }
{
    match names.get(id) {
        Named::Unnamed => 0,
        Named::Partial { real, .. } => real,
        Named::Live { real } => real,
    }
}

/// The id that a service id stands for; 0 for no descriptor.
fn id_of(names: &Names, real: u64) -> u64
    requires { (real ≡ 0) ⊎ ((id : ℕ) × (real_at names.now.known id ≡ Some real)) }
    ensures { IsDescTold names.now.known false 0 real result }
{
    names.back(real).unwrap_or(0)
}

/// A call under the ids of the running service.
pub(crate) fn real_call(alloc: Global, names: &Names, call: &Call) -> Result<Call, NoMemory>
    ensures { IfOk result (λ real. real ≡ under_names (pairs_of names.now.known) call.now) }
{
    Ok(Call {
        args: call.args.copy(alloc)?,
        client: call.client,
        seq: call.seq,
        fun: call.fun,
        desc: real_of(names, call.desc),
    })
}

/// A reply of the service under the clients' ids. What was made gets the next id, and its name.
pub(crate) fn tell(names: &mut Names, is_new: bool, next: u64, reply: Reply) -> Reply
    requires { MayTell names.old is_new reply }
    ensures tells { IsReplyTold names.old.known is_new next reply result }
    ensures names { (id : ℕ) → named_at names.new.known id
        ≡ (if is_named_by is_new next reply id then Live (real_in reply) else named_at names.old.known id) }
    ensures room { names.old.spare ≤ names.new.spare + 1 }
{
    match reply {
        Reply::Ok(good) => Reply::Ok(Good {
            desc: tell_desc(names, is_new, next, good.desc),
            words: good.words,
            bytes: good.bytes,
        }),
        Reply::Refused(code) => Reply::Refused(code),
    }
}

// The id of a descriptor of the service. One that was made gets the next, and its name.
fn tell_desc(names: &mut Names, is_new: bool, next: u64, real: u64) -> u64
    requires { MayTellDesc names.old is_new real }
    ensures tells { IsDescTold names.old.known is_new next real result }
    ensures names { (id : ℕ) → named_at names.new.known id
        ≡ (if is_new && (id == next) then Live real else named_at names.old.known id) }
    ensures room { names.old.spare ≤ names.new.spare + 1 }
{
    if is_new {
        names.set(next, Named::Live { real });
        next
    } else {
        id_of(names, real)
    }
}
