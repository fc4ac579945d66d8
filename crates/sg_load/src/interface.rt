// The standard interface of a service.
ghost use Rattle.std.specs.Prelude.{◌≡◌, ◌-◌, ◌<◌, ◌^◌, IfOk};
ghost use Rattle.sg_facts.specs.Facts.{facts_of};
ghost use Rattle.sg_facts.specs.Laws.{whole};
ghost use Rattle.sg_load.specs.Services.{facts_by, standard};

use crate::ServiceKind;
use sg_check::Accepted;
use sg_facts::{Interface, NoMemory, PairList, Shape};
use std::alloc::Global;

/// The standard interface of a service: each function that version 1 of its text declares, with all transitions and recover steps
/// of these.
pub fn standard(alloc: Global, service: ServiceKind) -> Result<Accepted, NoMemory>
    ensures standard { IfOk result (λ accepted. accepted ≡ standard service) }
    ensures facts { IfOk result (λ accepted. accepted.facts ≡ facts_by service) }
{
    let iface = service.standard_interface(alloc)?;
    Ok(Accepted::new(iface))
}

/// The interface of a shape that declares so many functions, the first ones, with these transitions and all recover steps.
pub(crate) fn declaring(
    alloc: Global,
    shape: Shape,
    count: usize,
    moves: &[(u8, u8)],
) -> Result<Interface, NoMemory>
    requires { count < 32 }
    ensures { IfOk result (λ iface. iface ≡ record (whole (facts_of shape)) { declared = 2 ^ count - 1; moves = moves.now }) }
{
    let declared = first_of(count);
    let moves = PairList::from_slice(alloc, moves)?;
    let steps = PairList::from_slice(alloc, shape.steps)?;
    Ok(Interface {
        shape,
        declared,
        version: 1,
        eager: false,
        moves,
        steps,
    })
}

// So many functions, the first ones, all declared.
fn first_of(count: usize) -> u32
    requires { count < 32 }
    ensures { result ≡ 2 ^ count - 1 }
{
    (1 << count) - 1
}
