// What can be done with any service.
ghost use Rattle.std.specs.Prelude.{◌≡◌, true};
ghost use Rattle.sg_load.specs.sg_plain.Answering.{no_query_waits};

use sg_multi::Service;

/// What can be done in one thread with any service: it is written once, for a type, and done by `at_served` with the service of an interface.
pub trait Job: Sized {
    ghost use Rattle.sg_load.specs.sg_plain.Answering.{Answering};

    /// What it comes to.
    type Output;

    /// What it asks of a service.
    ghost asks: { Self → Answering → Type 0 };

    /// What it gives, of a service.
    ghost gives: { Self → Answering → Self.Output → Type 0 };

    /// Does it, with the service of this type, which is booted from this image.
    fn run<S: Service>(self, image: S::Image) -> Self::Output
        requires waits { no_query_waits S.facts ≡ true }
        requires asks { asks self (record { facts = S.facts; ask = S.ask; parts = S.parts }) }
        ensures { gives self (record { facts = S.facts; ask = S.ask; parts = S.parts }) result };
}
