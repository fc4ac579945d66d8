// An accepted interface, given to a play.
ghost use Rattle.std.specs.Prelude.{◌≡◌};

use sg_load::Accepted;

/// What gives an accepted interface. A play of a service that is described takes one by this trait, so that no lifetime stands in the
/// types that it names.
pub trait Given {
    ghost use Rattle.sg_multi.specs.sg_facts.Interface.{Declared};

    ghost iface: { Self → Declared };

    /// The interface, lent.
    fn given(&self) -> &Accepted
        ensures { result.now ≡ iface self.now };
}

impl Given for Accepted {
    ghost iface = { λ a. a };

    fn given(&self) -> &Accepted {
        self
    }
}
