// Laws of the answers.
ghost use Rattle.std.specs.Prelude.{◌↔◌, ◌≡◌, ℕ, List};
ghost use Rattle.sg_lex.specs.Tokens.{Answer, answers_of};
ghost use Rattle.sg_lex.specs.Reading.{IsReading, AreSlices};

/// Each token is a slice of its text with at least one byte; tokens stand in order and do not overlap.
pub fn tokens_are_slices()
    ensures { (text : List ℕ) → AreSlices text 0 (answers_of text) }
{}

/// The answers are the one reading of the text by the table of tokens: it is cut from its front to its end into blanks,
/// comments and tokens, each token the longest, up to its end or to a place at which none of these begins.
pub fn answers_are_the_reading()
    ensures reads { (text : List ℕ) → IsReading 0 text (answers_of text) }
    ensures alone { (text : List ℕ) (answers : List Answer) → IsReading 0 text answers → answers ≡ answers_of text }
{}
