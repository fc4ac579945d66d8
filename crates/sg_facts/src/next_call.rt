// A call that a client is about to make.
use sg_base::Args;

/// What a client says of its next call: the function, the descriptor or parent (0 where it takes none), and the other arguments.
#[derive(Drop)]
pub struct NextCall {
    pub fun: u8,
    pub desc: u64,
    pub args: Args,
}
