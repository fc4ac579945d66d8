// What stands for an id.
ghost use Rattle.std.specs.Prelude.{◌≡◌, Some};
ghost use Rattle.sg_name.specs.Names.{name_of, standing_of};

/// What stands for a client's id in the running service.
#[derive(Clone, Copy, Debug, PartialEq, Eq)]
pub enum Named {
    /// Nothing: its descriptor was not rebuilt in this boot.
    Unnamed,
    /// A descriptor that is rebuilt in part.
    Partial {
        /// The service id.
        real: u64,
        /// The number of calls of its walk that were replayed.
        done: u8,
    },
    /// A descriptor that is whole.
    Live {
        /// The service id.
        real: u64,
    },
}

/// A service id, and how far its descriptor is rebuilt.
#[derive(Clone, Copy, Debug)]
pub struct Standing {
    pub(crate) real: u64,
    /// The number of calls of its walk that were replayed; None where it is whole.
    pub(crate) done: Option<u8>,
}

impl Named {
    /// The service id, and how far its descriptor is rebuilt; None where nothing stands for the id.
    pub(crate) fn standing(self) -> Option<Standing>
        ensures { result ≡ standing_of self }
    {
        match self {
            Named::Unnamed => None,
            Named::Partial { real, done } => Some(Standing {
                real,
                done: Some(done),
            }),
            Named::Live { real } => Some(Standing { real, done: None }),
        }
    }
}

impl Standing {
    /// The name of a service id and of how far its descriptor is rebuilt.
    pub(crate) fn named(self) -> Named
        ensures { result ≡ name_of (Some self) }
    {
        match self.done {
            Some(done) => Named::Partial {
                real: self.real,
                done,
            },
            None => Named::Live { real: self.real },
        }
    }
}
