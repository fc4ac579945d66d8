// What ends a world.
use sg_facts::{Service, Stops};
use sg_world::World;

/// Ends a world where it stands, with its service, its clients and all memory that it took.
pub fn discard<S: Service, T: Stops>(_world: World<S, T>) {}
