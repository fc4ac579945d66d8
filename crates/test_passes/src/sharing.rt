// How what two clients share begins and ends.
ghost use Rattle.std.specs.Prelude.{◌≡◌, [], true, IfOk};
ghost use Rattle.test_passes.specs.Ready.{IsNewPass, IsPassOf};

use sg_log::{Host, NoMemory, Pass, PassList, Shared};
use std::alloc::Global;

/// Shares what has two clients, of which none did anything yet, with a pass for each.
pub fn share<H: Host>(alloc: Global, host: H) -> Result<(Shared<H>, Pass<H>, Pass<H>), NoMemory>
    requires clients { H.clients ≡ 2 }
    requires log { H.log host ≡ [] }
    ensures first { IfOk result (λ s. IsNewPass s.0 1 s.1) }
    ensures second { IfOk result (λ s. IsNewPass s.0 2 s.2) }
    ensures last { IfOk result (λ s. s.2.last ≡ true) }
{
    let (shared, mut passes) = Shared::new(alloc, host)?;
    let Some(second) = passes.pop() else {
        unreachable!()
    };
    let Some(first) = passes.pop() else {
        unreachable!()
    };
    Ok((shared, first, second))
}

/// Ends a sharing, and gives out what was shared.
pub fn end<H: Host>(
    alloc: Global,
    shared: Shared<H>,
    first: Pass<H>,
    second: Pass<H>,
) -> Result<H, NoMemory>
    requires first { IsPassOf shared 1 first }
    requires second { IsPassOf shared 2 second }
    requires last { second.last ≡ true }
{
    let mut passes = PassList::new(alloc);
    passes.push(first)?;
    passes.push(second)?;
    Ok(shared.close(passes))
}
