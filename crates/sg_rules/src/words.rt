// The words of rules, and what a token of a rule has to be.
ghost use Rattle.std.specs.Prelude.{◌≡◌, nat_eq};
ghost use Rattle.std.specs.List.{list_any};
ghost use Rattle.std.specs.Cmp.Lexicographic.{pointwise};
ghost use Rattle.sg_rules.specs.Grammar.Words.{word_of, is_name};

use sg_lex::{Token, TokenKind, TokenTest};

/// A word that means something in a rule, so that no name in a rule is one.
#[derive(Clone, Copy, Debug, PartialEq, Eq)]
pub enum Keyword {
    Refuse,
    Wait,
    Give,
    If,
    Is,
    Not,
    Below,
    Above,
    Plus,
    Minus,
    Least,
    Greatest,
    Caller,
    State,
    Row,
    Where,
    Else,
    First,
    /// The word `some`, before `row`.
    SomeRow,
    /// The word `no`, before `row`.
    NoRow,
}

static KEYWORDS: [Keyword; 20] = [
    Keyword::Refuse,
    Keyword::Wait,
    Keyword::Give,
    Keyword::If,
    Keyword::Is,
    Keyword::Not,
    Keyword::Below,
    Keyword::Above,
    Keyword::Plus,
    Keyword::Minus,
    Keyword::Least,
    Keyword::Greatest,
    Keyword::Caller,
    Keyword::State,
    Keyword::Row,
    Keyword::Where,
    Keyword::Else,
    Keyword::First,
    Keyword::SomeRow,
    Keyword::NoRow,
];

impl Keyword {
    /// The word as it is spelt.
    pub fn bytes(self) -> &'static [u8]
        ensures { result.now ≡ word_of self }
    {
        match self {
            Keyword::Refuse => b"refuse",
            Keyword::Wait => b"wait",
            Keyword::Give => b"give",
            Keyword::If => b"if",
            Keyword::Is => b"is",
            Keyword::Not => b"not",
            Keyword::Below => b"below",
            Keyword::Above => b"above",
            Keyword::Plus => b"plus",
            Keyword::Minus => b"minus",
            Keyword::Least => b"least",
            Keyword::Greatest => b"greatest",
            Keyword::Caller => b"caller",
            Keyword::State => b"state",
            Keyword::Row => b"row",
            Keyword::Where => b"where",
            Keyword::Else => b"else",
            Keyword::First => b"first",
            Keyword::SomeRow => b"some",
            Keyword::NoRow => b"no",
        }
    }
}

/// Whether a word may be a name in a rule: it is none of the words of rules.
pub fn is_name(word: &[u8]) -> bool
    ensures { result ≡ is_name word.now }
{
    !is_in(&KEYWORDS, word)
}

// Whether a word is one of these.
fn is_in(keywords: &[Keyword], word: &[u8]) -> bool
    ensures { result ≡ list_any (λ keyword. pointwise nat_eq word.now (word_of keyword)) keywords.now }
{
    keywords.iter().any(|keyword| word == keyword.bytes())
}

/// What a token of a rule has to be, whatever its place: a word of rules, or a mark.
#[derive(Clone, Copy, Debug)]
pub enum Fixed {
    Key(Keyword),
    Comma,
    Semicolon,
    Dollar,
}

impl TokenTest for Fixed {
    ghost use Rattle.sg_rules.specs.Grammar.Inside.States.{fits};

    ghost holds_of = { fits };

    fn holds(&self, token: &Token<'_>) -> bool {
        match *self {
            Fixed::Key(keyword) => token.is_word(keyword.bytes()),
            Fixed::Comma => token.is_mark(b','),
            Fixed::Semicolon => token.is_mark(b';'),
            Fixed::Dollar => token.is_mark(b'$'),
        }
    }
}

/// What a token of a rule has to be that is told with its place: a name, a number, or a word of rules.
#[derive(Clone, Copy, Debug)]
pub enum Wanted {
    Name,
    Number,
    Key(Keyword),
}

impl TokenTest for Wanted {
    ghost use Rattle.sg_rules.specs.Grammar.Inside.States.{wants};

    ghost holds_of = { wants };

    fn holds(&self, token: &Token<'_>) -> bool {
        match *self {
            Wanted::Name => token.has_kind(TokenKind::Word) && is_name(token.slice),
            Wanted::Number => token.has_kind(TokenKind::Number),
            Wanted::Key(keyword) => token.is_word(keyword.bytes()),
        }
    }
}
