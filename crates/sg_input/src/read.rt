// What is read from bytes: what they stand for, or the line that refuses them.
use sg_facts::Bytes;

/// What is read from a text or an input.
#[derive(Debug, Drop)]
pub enum Read<T> {
    /// It is ready: nothing is wrong with it, and it stands for this.
    Ready(T),
    /// It is refused, with this line.
    Refused(Bytes),
}
