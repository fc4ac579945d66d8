//! The edge to the outside: where bytes come from and go to, who says when a service stops, and the gate round each
//! call of a thread.
//!
//! - `source`, `sink`: bytes in and out (`Source`, `Sink`, `Failed`), and how a whole input is read and a whole output
//!   written (`read_all`, `write_all`)
//! - `memory`: both over memory, with calls that fail on purpose (`MemSource`, `MemSink`)
//! - `standard`: both over std's reader and writer (`StdSource`, `StdSink`)
//! - `stops`: services that never stop, or at listed points (`Never`, `AtPoints`)
//! - `gate`: what stands round each call of a thread (`Gate`, `OpenGate`)
#![tactic(auto)]

mod gate;
mod memory;
mod sink;
mod source;
mod standard;
mod stops;

pub use gate::{Gate, OpenGate};
pub use memory::{MemSink, MemSource};
pub use sg_base::NoMemory;
pub use sink::{CutOff, Sink, write_all};
pub use source::{Failed, Intake, ReadError, Source, read_all};
pub use standard::{StdSink, StdSource};
pub use stops::{AtPoints, Never};
