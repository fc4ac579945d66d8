// An interface that is accepted, whatever the version of its text.
use sg_explain::{Accepted, ListOf};
use sg_own::Description;

/// An interface that is accepted.
#[derive(Debug, Drop)]
pub struct AnyInterface {
    /// The interface.
    pub accepted: Accepted,
    /// What its text describes; None where it is of a service that there is.
    pub own: Option<Description>,
}

/// The interfaces of an input for several services, its members, in the order of their texts.
pub type AnyMembers = ListOf<AnyInterface>;
