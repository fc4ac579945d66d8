// The line that divides an input.
ghost use Rattle.std.specs.Prelude.{◌≡◌, ◌≢◌, ◌≤◌, ◌<◌, ◌++◌, ◌+◌, ◌⊎◌, ℕ, List, [], codes, length, take, drop, slice_index, MatchOption};
ghost use Rattle.sg_input.specs.Divider.{Divides, IsCut};
ghost use Rattle.sg_input.specs.Inside.Dividing.{AreLines, IsDivider};

/// What stands before and after the first line that is `%%` alone, ended by LF, by CR LF, or by the end of the input;
/// None exactly where there is no such line. Lines are looked for before any token is, within comments too.
pub fn cut(input: &[u8]) -> Option<(&[u8], &[u8])>
    ensures { MatchOption result ((before behind : List ℕ) → Divides input.now before behind → ⊥) (λ p. IsCut input.now p.0.now p.1.now) }
{
    let mut at = 0;
    'lines: loop {
        let (before, rest) = input.split_at(at);
        if let Some(behind) = after_divider(rest) {
            return Some((before, behind));
        }
        at += line_length(rest)?;
    }
}

// The number of bytes of the line in front, with its LF; None where no LF is left.
fn line_length(rest: &[u8]) -> Option<usize>
    ensures { MatchOption result ((k : ℕ) → k < length rest.now → slice_index rest.now k ≢ 10)
        (λ n. (at : ℕ) × (n ≡ at + 1) × (at < length rest.now) × (slice_index rest.now at ≡ 10) × ((k : ℕ) → k < at → slice_index rest.now k ≢ 10)) }
{
    for (at, byte) in rest.iter().enumerate() {
        if *byte == b'\n' {
            return Some(at + 1);
        }
    }
    None
}

// What stands after the line in front, where that line is `%%` alone.
#[tactic(auto, using(crate::proofs::Dividers::no_divider))]
fn after_divider(rest: &[u8]) -> Option<&[u8]>
    ensures { MatchOption result ((line behind : List ℕ) → IsDivider line behind → rest.now ≢ line ++ behind)
        (λ behind. (line : List ℕ) × IsDivider line behind.now × (rest.now ≡ line ++ behind.now)) }
{
    if let Some(behind) = after(rest, b"%%\n") {
        return Some(behind);
    }
    if let Some(behind) = after(rest, b"%%\r\n") {
        return Some(behind);
    }
    after_all(rest, b"%%")
}

// What stands after a word, where the word stands in front.
fn after<'a>(bytes: &'a [u8], word: &[u8]) -> Option<&'a [u8]>
    ensures { MatchOption result ((rest : List ℕ) → bytes.now ≢ word.now ++ rest) (λ rest. bytes.now ≡ word.now ++ rest.now) }
{
    bytes.strip_prefix(word)
}

// The empty rest, where the word is all.
fn after_all<'a>(bytes: &'a [u8], word: &[u8]) -> Option<&'a [u8]>
    ensures { MatchOption result (bytes.now ≢ word.now) (λ rest. (bytes.now ≡ word.now) × (rest.now ≡ [])) }
{
    if bytes == word {
        Some(&bytes[bytes.len()..])
    } else {
        None
    }
}
