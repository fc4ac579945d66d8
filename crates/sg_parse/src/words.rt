// The words that the grammar keeps for itself.
ghost use Rattle.std.specs.Prelude.{◌≡◌, nat_eq};
ghost use Rattle.std.specs.List.{list_any};
ghost use Rattle.std.specs.Cmp.Lexicographic.{pointwise};
ghost use Rattle.sg_parse.specs.Grammar.Words.{is_of};

/// What a word has to be where the grammar has a choice.
#[derive(Clone, Copy, Debug, PartialEq, Eq)]
pub enum Sort {
    /// A word that isn't reserved.
    Name,
    /// The word of a statement over one function.
    One,
    /// The word of a statement over two functions, or over a function and a field.
    Two,
    /// The form of a parameter.
    Form,
    /// Whose descriptors a descriptor's parent may be: `none`, `same` or `cross`.
    Parents,
    /// What becomes of a descriptor that has children: `refuse` or `subtree`.
    Closing,
    /// `true` or `false`.
    Flag,
}

static RESERVED: [&[u8]; 20] = [
    b"service_global_info",
    b"desc_data_retval",
    b"desc_data_retval_add",
    b"sm_creation",
    b"sm_terminal",
    b"sm_block",
    b"sm_wakeup",
    b"sm_query",
    b"sm_keep",
    b"sm_needs_all",
    b"resc_data",
    b"sm_state",
    b"sm_transition",
    b"sm_recover",
    b"desc_data_clear",
    b"desc_data_sub",
    b"desc",
    b"parent_desc",
    b"desc_data",
    b"desc_data_add",
];

static ONE: [&[u8]; 8] = [
    b"sm_creation",
    b"sm_terminal",
    b"sm_block",
    b"sm_wakeup",
    b"sm_query",
    b"sm_keep",
    b"sm_needs_all",
    b"resc_data",
];

static TWO: [&[u8]; 5] = [
    b"sm_state",
    b"sm_transition",
    b"sm_recover",
    b"desc_data_clear",
    b"desc_data_sub",
];

static FORMS: [&[u8]; 4] = [b"desc", b"parent_desc", b"desc_data", b"desc_data_add"];

static PARENTS: [&[u8]; 3] = [b"none", b"same", b"cross"];

static CLOSINGS: [&[u8]; 2] = [b"refuse", b"subtree"];

static FLAGS: [&[u8]; 2] = [b"true", b"false"];

impl Sort {
    /// Whether a word is of this sort.
    pub fn has(self, word: &[u8]) -> bool
        ensures { result ≡ is_of self word.now }
    {
        match self {
            Sort::Name => !is_in(&RESERVED, word),
            Sort::One => is_in(&ONE, word),
            Sort::Two => is_in(&TWO, word),
            Sort::Form => is_in(&FORMS, word),
            Sort::Parents => is_in(&PARENTS, word),
            Sort::Closing => is_in(&CLOSINGS, word),
            Sort::Flag => is_in(&FLAGS, word),
        }
    }
}

// Whether a word is one of these.
fn is_in(words: &[&[u8]], word: &[u8]) -> bool
    ensures { result ≡ list_any (λ other. pointwise nat_eq word.now other.now) words.now }
{
    words.iter().any(|other| word == *other)
}
