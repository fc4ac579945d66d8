// The service that a member is of.
use sg_interpret::Description;
use sg_load::ServiceKind;

/// The service that an interface is of.
#[derive(Clone, Copy, Debug)]
pub enum Served {
    /// One that is built in.
    BuiltIn(ServiceKind),
    /// The one that the interface's text describes.
    Own(Description),
}
