// The words for when descriptors are rebuilt.
ghost use Rattle.std.specs.Prelude.{◌≡◌};
ghost use Rattle.sg_parse.specs.Grammar.Sentence.{recovery_word};

/// The word for whether every live descriptor is rebuilt before any call is served, or each when a call needs it.
pub fn recovery_word(eager: bool) -> &'static [u8]
    ensures { result.now ≡ recovery_word eager }
{
    if eager { b"eager" } else { b"demand" }
}
