// What a text declares of a shape, before it is accepted.
use sg_check_statements::{Interface, Shape};
use sg_walk::TripleList;

/// The shape of a text, the interface that the text declares of it, and all that descriptors can come to.
#[derive(Debug, Drop)]
pub struct Candidate {
    pub shape: Shape,
    pub iface: Interface,
    pub triples: TripleList,
}
