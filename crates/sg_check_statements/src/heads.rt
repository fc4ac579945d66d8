// Whether the facts at the head of a text are the service's.
ghost use Rattle.std.specs.Prelude.{◌≡◌};
ghost use Rattle.sg_facts.specs.Facts.{facts_of};
ghost use Rattle.sg_check_statements.specs.Flaws.{wrong_fact};
ghost use Rattle.sg_check_statements.specs.Inside.Pieces.{first_other, other_value};

use sg_facts::{Shape, close_word, flag_word, parents_word};
use sg_parse::{Facts, Spelled};

/// The place of the first fact that isn't the service's.
pub fn wrong_fact(shape: &Shape, facts: &Facts) -> Option<usize>
    ensures { result ≡ wrong_fact (facts_of shape.now) facts.now }
{
    first_other(shape, facts)
}

// The same, one fact after the other.
fn first_other(shape: &Shape, facts: &Facts) -> Option<usize>
    ensures { result ≡ first_other (facts_of shape.now) facts.now }
{
    let parent = other_value(&facts.parent, parents_word(shape.parents));
    let close = other_value(&facts.close, close_word(shape.subtree));
    let global = other_value(&facts.global, flag_word(shape.global));
    let block = other_value(&facts.block, flag_word(shape.block));
    let has_data = other_value(&facts.has_data, flag_word(shape.has_data));
    let resc_data = other_value(&facts.resc_data, flag_word(shape.resc_data));
    parent.or(close.or(global.or(block.or(has_data.or(resc_data)))))
}

// The place of a value that isn't this word.
fn other_value(value: &Spelled, word: &[u8]) -> Option<usize>
    ensures { result ≡ other_value value.now word.now }
{
    if value.slice == word {
        None
    } else {
        Some(value.at)
    }
}
