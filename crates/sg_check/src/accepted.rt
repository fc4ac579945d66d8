// An interface that is accepted.
use sg_check_statements::Interface;
use std::marker::Model;

/// An accepted interface: one that fits, so that every descriptor can be recovered in every state that it can come to. The
/// checker makes one of a text that it accepts. Its shape has at most `MOST_FUNS` functions and `MOST_FIELDS` fields.
/// Contracts see the interface.
#[derive(Debug, Drop)]
pub struct Accepted {
    iface: Interface,
}

impl Model for Accepted {
    ghost use Rattle.sg_check_statements.specs.sg_facts.Fits.{Fits};
    ghost use Rattle.sg_check_statements.specs.sg_facts.Interface.{Declared};
    ghost use Rattle.sg_check_statements.specs.Shapes.{IsSmall};

    ghost Value = { Declared };

    ghost view = { λ a. a.iface };

    ghost invariant = { λ a. Fits a.iface × IsSmall a.iface };
}

impl Accepted {
    ghost use Rattle.std.specs.Prelude.{◌≡◌};
    ghost use Rattle.sg_check_statements.specs.sg_facts.Fits.{Fits};
    ghost use Rattle.sg_check_statements.specs.Shapes.{IsSmall};

    /// An interface that fits, of a shape within the limits.
    pub fn new(iface: Interface) -> Accepted
        requires fits { Fits iface }
        requires small { IsSmall iface }
        ensures { result ≡ iface }
    {
        Accepted { iface }
    }

    /// The interface, lent.
    pub fn interface(&self) -> &Interface
        ensures same { result.now ≡ self.now }
        ensures fits { Fits result.now }
        ensures small { IsSmall result.now }
    {
        &self.iface
    }
}
