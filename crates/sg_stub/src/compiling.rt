// The tables of an accepted interface.
ghost use Rattle.std.specs.Prelude.{◌≡◌, IfOk};
ghost use Rattle.sg_check.specs.sg_facts.Tables.{AreTables};

use crate::lines::lines_of;
use crate::triples::TripleSet;
use sg_check::{Accepted, NoMemory, Tables, TryCopy, reachable};
use std::alloc::Global;

/// The tables of an accepted interface: one line for each creation, state and set of fields that its descriptors can come to,
/// ascending, with the least walk that rebuilds such a descriptor.
pub fn compile(alloc: Global, accepted: &Accepted) -> Result<Tables, NoMemory>
    ensures iface { IfOk result (λ tables. tables.iface ≡ accepted.now) }
    ensures lines { IfOk result (λ tables. AreTables accepted.now tables.walks) }
{
    let iface = accepted.interface();
    let triples = reachable(alloc, iface)?;
    let set = TripleSet::new(alloc, triples.as_slice())?;
    let lines = lines_of(alloc, iface, &set)?;
    Ok(Tables::new(iface.copy(alloc)?, lines))
}
