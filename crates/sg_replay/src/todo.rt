// What is still to be done before a call may be served.
ghost use Rattle.std.specs.Prelude.{◌≡◌, ◌<◌, ℕ};
ghost use Rattle.sg_name.specs.Names.{named_at};
ghost use Rattle.sg_name.specs.declared.named.Named.TheVariants.{Partial};
ghost use Rattle.sg_facts.specs.Walks.{most_calls};
ghost use Rattle.sg_replay.specs.Engined.{AreInWalks};
ghost use Rattle.sg_replay.specs.Missing.{is_whole, next_number, todo_of};

use sg_name::{Named, Names};

/// What is done next, before a call may be served.
#[derive(Clone, Copy, Debug, PartialEq, Eq)]
pub enum Todo {
    /// A call of the walk of a descriptor is replayed.
    Walk {
        /// The client's id of the descriptor.
        id: u64,
        /// The number of the call in the walk, from 1.
        k: u8,
    },
    /// The needed file is loaded.
    Load,
}

/// The next call of the walk of an id; None where there is no id.
pub(crate) fn next_walk(names: &Names, id: Option<u64>) -> Option<Todo>
    requires { AreInWalks names.now.known }
    ensures { result ≡ todo_of names.now.known id }
{
    match id {
        Some(id) => Some(Todo::Walk {
            id,
            k: next_number(names.get(id)),
        }),
        None => None,
    }
}

/// Whether a descriptor is whole.
pub(crate) fn is_whole(named: Named) -> bool
    ensures { result ≡ is_whole named }
{
    matches!(named, Named::Live { .. })
}

// The number of the next call of a descriptor's walk.
fn next_number(named: Named) -> u8
    requires { (real done : ℕ) → named ≡ Partial real done → done < most_calls }
    ensures { result ≡ next_number named }
{
    match named {
        Named::Unnamed | Named::Live { .. } => 1,
        Named::Partial { done, .. } => done + 1,
    }
}
