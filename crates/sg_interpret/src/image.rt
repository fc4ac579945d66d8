// What each boot of a described service begins from.
ghost use Rattle.std.specs.Prelude.{◌≡◌};
ghost use Rattle.sg_described.specs.Described.{described_of};
ghost use Rattle.sg_described.specs.Safe.{made_safe};

use crate::Describes;
use sg_described::Description;
use std::alloc::AllocError;
use std::marker::PhantomData;

/// The description of the service at a place, which is safe.
#[derive_where(Debug)]
pub struct DescribedImage<N: Describes, const PLACE: usize> {
    description: Description,
    of: PhantomData<N>,
    ghost is: { described_of description ≡ made_safe (N.descriptions PLACE) },
}

impl<N: Describes, const PLACE: usize> Clone for DescribedImage<N, PLACE> {
    ghost use Rattle.std.specs.Prelude.{⊤};

    ghost is_clone = { λ x y. y ≡ x };

    ghost is_infallible = { λ _. ⊤ };

    fn clone(&self) -> Result<Self, AllocError> {
        Ok(*self)
    }
}

impl<N: Describes, const PLACE: usize> Copy for DescribedImage<N, PLACE> {}

impl<N: Describes, const PLACE: usize> DescribedImage<N, PLACE> {
    /// The image of a description, which is safe and the service's. It takes no memory.
    pub fn new(description: Description) -> Self
        requires { described_of description ≡ made_safe (N.descriptions PLACE) }
    {
        DescribedImage {
            description,
            of: PhantomData,
        }
    }

    /// The description, lent. It is safe, and the service's.
    pub fn description(&self) -> &Description
        ensures { described_of result.now ≡ made_safe (N.descriptions PLACE) }
    {
        &self.description
    }
}
