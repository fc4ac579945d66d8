// A described service.
ghost use Rattle.sg_described.specs.sg_facts.Kinds.{MayAsk};
ghost use Rattle.sg_described.specs.sg_slots.Decide.{Decides};
ghost use Rattle.sg_described.specs.sg_slots.Slots.{object_of};
ghost use Rattle.sg_described.specs.Meaning.{described_parts, described_table};
ghost use Rattle.sg_described.specs.Safe.{made_safe};
ghost use Rattle.sg_interpret.specs.DescribedRow.{described_body};

use crate::decide::decide;
use crate::{DescribedEntry, DescribedImage, Describes};
use sg_described::{Call, Decision, NoMemory, Outcome, Path, Service, Slots, Stops, carry_out};
use std::alloc::Global;

/// The described service at a place: it holds an entry for each descriptor, does with a call what its description says, and has neither
/// parents nor files.
#[derive(Drop)]
#[derive_where(Debug)]
pub struct DescribedService<N: Describes, const PLACE: usize> {
    image: DescribedImage<N, PLACE>,
    slots: Slots<DescribedEntry>,
}

impl<N: Describes, const PLACE: usize> Service for DescribedService<N, PLACE> {
    ghost use Rattle.sg_described.specs.sg_slots.Slots.{object_of};
    ghost use Rattle.sg_described.specs.Safe.{made_safe};
    ghost use Rattle.sg_interpret.specs.DescribedModel.{described_model};
    ghost use Rattle.sg_interpret.specs.DescribedRow.{described_body};

    type Image = DescribedImage<N, PLACE>;

    ghost facts = { (described_model (N.descriptions PLACE)).facts };

    ghost object = { λ s. object_of (described_body (made_safe (N.descriptions PLACE))) s.slots };

    ghost ask = { (described_model (N.descriptions PLACE)).ask };

    ghost parts = { (described_model (N.descriptions PLACE)).parts };

    ghost sound = { (described_model (N.descriptions PLACE)).sound };

    ghost answers_and_keeps = { (described_model (N.descriptions PLACE)).answers_and_keeps };

    ghost answers_alike = { (described_model (N.descriptions PLACE)).answers_alike };

    ghost walk_goes_on = { (described_model (N.descriptions PLACE)).walk_goes_on };

    ghost blocked_stays = { (described_model (N.descriptions PLACE)).blocked_stays };

    ghost shape_allows = { (described_model (N.descriptions PLACE)).shape_allows };

    ghost counts_slowly = { (described_model (N.descriptions PLACE)).counts_slowly };

    fn fresh(alloc: Global, image: DescribedImage<N, PLACE>) -> Self {
        DescribedService {
            image,
            slots: Slots::new(alloc),
        }
    }

    fn invoke<T: Stops>(&mut self, alloc: Global, stops: &mut T, call: &Call) -> Outcome {
        let decision = decide_by(&self.image, &self.slots, call);
        carry_out(&mut self.slots, alloc, stops, call.desc, decision)
    }

    fn load(&mut self, _: Global, _: &Path, _: &[u8]) -> Result<(), NoMemory> {
        Ok(())
    }
}

// What to do with a call, by the description of the service.
fn decide_by<N: Describes, const PLACE: usize>(
    image: &DescribedImage<N, PLACE>,
    slots: &Slots<DescribedEntry>,
    call: &Call,
) -> Decision<DescribedEntry>
    requires { MayAsk (made_safe (N.descriptions PLACE)).facts (object_of (described_body (made_safe (N.descriptions PLACE))) slots.now) call.now }
    ensures { let d = made_safe (N.descriptions PLACE) in Decides d.facts (described_table d) (described_parts d) (described_body d) slots.now call.now result }
{
    decide(image.description(), slots, call)
}
