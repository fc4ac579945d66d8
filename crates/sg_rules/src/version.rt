// The versions of the language that keep words for themselves.
ghost use Rattle.std.specs.Prelude.{◌≡◌, nat_eq};
ghost use Rattle.std.specs.List.{list_any};
ghost use Rattle.std.specs.Cmp.Lexicographic.{pointwise};
ghost use Rattle.sg_rules.specs.Versions.{is_kept};

/// A version after the first. It keeps words for itself, beside those that the version before it keeps: no name in its
/// texts is one of them.
#[derive(Clone, Copy, Debug, PartialEq, Eq)]
pub enum Newer {
    Second,
    Third,
}

static SECOND: [&[u8]; 1] = [b"desc_data_retval_sub"];

static THIRD: [&[u8]; 4] = [
    b"sm_external",
    b"desc_data_most",
    b"desc_data_unique",
    b"sm_answer",
];

impl Newer {
    /// Whether the version keeps this word for itself.
    pub fn keeps(self, word: &[u8]) -> bool
        ensures { result ≡ is_kept self word.now }
    {
        match self {
            Newer::Second => is_in(&SECOND, word),
            Newer::Third => is_in(&THIRD, word),
        }
    }
}

// Whether a word is one of these.
fn is_in(words: &[&[u8]], word: &[u8]) -> bool
    ensures { result ≡ list_any (λ other. pointwise nat_eq word.now other.now) words.now }
{
    words.iter().any(|other| word == *other)
}
