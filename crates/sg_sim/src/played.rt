// A run that was played.
use sg_play::Ended;
use std::marker::Model;

/// A run that came to its end. Only a play makes one. Contracts see what the run came to.
#[derive(Debug, Drop)]
pub struct Played {
    ended: Ended,
}

impl Model for Played {
    ghost use Rattle.sg_play.specs.sg_hist.declared.ended.Ended.{Ended as WhatItCameTo};

    ghost Value = { WhatItCameTo };

    ghost view = { λ p. p.ended };
}

impl Played {
    ghost use Rattle.std.specs.Prelude.{◌≡◌};

    // The run that came to this.
    pub(crate) fn new(ended: Ended) -> Played
        ensures { result ≡ ended }
    {
        Played { ended }
    }

    /// What the run came to, lent.
    pub fn ended(&self) -> &Ended
        ensures { result.now ≡ self.now }
    {
        &self.ended
    }
}
