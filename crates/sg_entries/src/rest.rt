// What is left of a text.
ghost use Rattle.std.specs.Prelude.{◌+◌, ◌<◌, ◌^◌, length};

/// What is left of a text: its bytes, and the place of the first of them.
#[derive(Clone, Copy)]
pub struct Rest<'a> {
    pub bytes: &'a [u8],
    pub at: usize,
    ghost within: { at + length bytes.now < 2 ^ 64 },
}
