// Which descriptions services have.
use std::marker::Brand;

/// Which description the service at each place has, from 0, where several services are played together; one that is alone is at place 0.
/// Whoever has read the descriptions picks them.
pub trait Describes {
    ghost use Rattle.std.specs.Prelude.{ℕ};
    ghost use Rattle.sg_described.specs.Described.{Described};

    ghost descriptions: { ℕ → Described };
}

impl Describes for Brand {
    ghost use Rattle.sg_described.specs.Safe.{described_nothing};

    ghost descriptions = { λ _. described_nothing };
}
