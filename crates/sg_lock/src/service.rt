// The lock service.
ghost use Rattle.std.specs.Prelude.{◌≡◌, refl};
ghost use Rattle.sg_lock.specs.LockModel.{lock_model};
ghost use Rattle.sg_lock.specs.Inside.LockDecision.{on_allocate, on_take, on_release, on_free, set_owner};

use crate::Lock;
use crate::functions::{ALLOC, RELEASE, TAKE};
use crate::shape::lock_shape;
use sg_facts::{Call, Code, Shape};
use sg_slots::{Decision, RowRules, RowService, Slots};

/// The lock service: it makes, takes, releases and ends locks, and blocks who takes a lock that another client owns.
pub type LockService = RowService<Lock>;

impl RowRules for Lock {
    ghost model = { lock_model };

    fn shape() -> Shape {
        lock_shape()
    }

    fn decide(locks: &Slots<Self>, call: &Call) -> Decision<Self> {
        if call.fun == ALLOC {
            return allocate(call.client);
        }
        match locks.get(call.desc) {
            Some(lock) => match call.fun {
                TAKE => take(lock, call.client),
                RELEASE => release(lock, call.client),
                _ => free(lock),
            },
            None => unreachable!(),
        }
    }

    ghost alone = { λ lock. refl };
}

// Makes a free lock.
fn allocate(client: u8) -> Decision<Lock>
    ensures { result ≡ on_allocate client }
{
    Decision::Make {
        entry: Lock {
            creator: client,
            owner: 0,
        },
        word: None,
    }
}

// Takes a lock: refused to its owner, and put off while another owns it.
fn take(lock: &Lock, client: u8) -> Decision<Lock>
    ensures { result ≡ on_take lock.now client }
{
    if lock.owner == client {
        Decision::Refuse(Code::Held)
    } else if lock.owner == 0 {
        owned_by(lock, client)
    } else {
        Decision::Block
    }
}

// Releases a lock, for its owner alone.
fn release(lock: &Lock, client: u8) -> Decision<Lock>
    ensures { result ≡ on_release lock.now client }
{
    if lock.owner == client {
        owned_by(lock, 0)
    } else {
        Decision::Refuse(Code::NotOwner)
    }
}

// Ends a lock that nobody owns.
fn free(lock: &Lock) -> Decision<Lock>
    ensures { result ≡ on_free lock.now }
{
    if lock.owner == 0 {
        Decision::Remove
    } else {
        Decision::Refuse(Code::Held)
    }
}

// Sets the owner of a lock, 0 for none.
fn owned_by(lock: &Lock, owner: u8) -> Decision<Lock>
    ensures { result ≡ set_owner lock.now owner }
{
    Decision::Set {
        entry: Lock { owner, ..*lock },
        word: None,
    }
}
