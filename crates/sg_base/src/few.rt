// A few words that stand in the value itself.
ghost use Rattle.std.specs.Prelude.{◌≡◌, ◌↔◌, ◌<◌, ◌≤◌, [], ◌∷◌, ◌++◌, length, IsSome, IfSome};
ghost use Rattle.sg_base.specs.Few.{few_in, most_few};

/// At most two words, which take no memory.
#[derive(Clone, Copy, Debug)]
pub(crate) enum FewWords {
    Empty,
    One([u64; 1]),
    Two([u64; 2]),
}

impl FewWords {
    /// These words; None exactly where they are more than two.
    pub(crate) fn of(words: &[u64]) -> Option<FewWords>
        ensures few { IfSome result (λ few. few_in few ≡ words.now) }
        ensures some { IsSome result ↔ (length words.now ≤ most_few) }
    {
        match words {
            [] => Some(FewWords::Empty),
            [first] => Some(FewWords::One([*first])),
            [first, second] => Some(FewWords::Two([*first, *second])),
            _ => None,
        }
    }

    /// These words and one more; None exactly where there are two.
    pub(crate) fn with(&self, word: u64) -> Option<FewWords>
        ensures few { IfSome result (λ few. few_in few ≡ few_in self.now ++ word ∷ []) }
        ensures some { IsSome result ↔ (length (few_in self.now) < most_few) }
    {
        match self.as_slice() {
            [] => Some(FewWords::One([word])),
            [first] => Some(FewWords::Two([*first, word])),
            _ => None,
        }
    }

    /// The words, lent.
    pub(crate) fn as_slice(&self) -> &[u64]
        ensures value { result.now ≡ few_in self.now }
        ensures few { length (few_in self.now) ≤ most_few }
    {
        match self {
            FewWords::Empty => &[],
            FewWords::One(words) => words,
            FewWords::Two(words) => words,
        }
    }
}
