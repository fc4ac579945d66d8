// Where a walk has come to.
ghost use Rattle.std.specs.Prelude.{◌≡◌, ◌≤◌, length, map};
ghost use Rattle.sg_facts.specs.Limits.{most_fields};
ghost use Rattle.sg_facts.specs.Walks.{mark_after, marks_after};
ghost use Rattle.sg_facts.specs.Inside.Walking.{restores_field};
ghost use Rattle.sg_walk.specs.Inside.Spots.{restores_number};
ghost use Rattle.sg_walk.specs.Marks.{known_of, shown_marks};

use sg_facts::{Effect, MOST_FIELDS};

/// What is known of a field when a walk has come so far.
#[derive(Clone, Copy, Debug, PartialEq, Eq, Hash)]
pub enum FieldState {
    /// The field is 0 or empty.
    Unset,
    /// The field has the row's value.
    Good,
    /// Nothing.
    Unknown,
}

/// A state, and a mark for each of at most `MOST_FIELDS` fields; those past the last are `Unset`.
#[derive(Clone, Copy, Debug, PartialEq, Eq, Hash)]
pub struct Spot {
    pub state: u8,
    pub marks: [FieldState; MOST_FIELDS],
}

/// The state that is sought, and the number of the set of fields.
#[derive(Clone, Copy, Debug)]
pub struct Goal {
    pub state: u8,
    pub mask: u8,
}

impl FieldState {
    /// The mark after an effect.
    pub fn after(self, effect: Effect) -> FieldState
        ensures { known_of result ≡ mark_after effect (known_of self) }
    {
        match effect {
            Effect::SetCaller | Effect::SetArg(_) => FieldState::Good,
            Effect::AddArg(_) => match self {
                FieldState::Unset => FieldState::Good,
                FieldState::Good | FieldState::Unknown => FieldState::Unknown,
            },
            Effect::SetRet | Effect::AddRet | Effect::SubOne | Effect::SubRet =>
                FieldState::Unknown,
            Effect::Clear => FieldState::Unset,
        }
    }

    /// Whether a field with this mark is restored, by whether it is to be set.
    pub fn restores(self, is_set: bool) -> bool
        ensures { result ≡ restores_field (known_of self) is_set }
    {
        match self {
            FieldState::Unset => !is_set,
            FieldState::Good => true,
            FieldState::Unknown => false,
        }
    }
}

/// The marks after a function's effects, where rows have so many fields.
pub fn marked(
    marks: [FieldState; MOST_FIELDS],
    count: usize,
    effects: &[(u8, Effect)],
) -> [FieldState; MOST_FIELDS]
    requires { count ≤ most_fields }
    ensures { shown_marks count result ≡ marks_after (map (λ p. (p.0, p.1)) effects.now) (shown_marks count marks) }
{
    let mut marked = marks;
    mark_each(&mut marked[..count], effects);
    marked
}

// Marks the fields that effects name.
fn mark_each(marks: &mut [FieldState], effects: &[(u8, Effect)])
    ensures len { length marks.new ≡ length marks.old }
    ensures marked { map known_of marks.new ≡ marks_after (map (λ p. (p.0, p.1)) effects.now) (map known_of marks.old) }
{
    'effects: for (field, effect) in effects {
        let at = usize::from(*field);
        if at < marks.len() {
            marks[at] = marks[at].after(*effect);
        }
    }
}

/// Whether marks restore the set of fields that has a number: bit i for field i.
pub fn restores_number(marks: &[FieldState], number: u8) -> bool
    ensures { result ≡ restores_number (map known_of marks.now) number }
{
    match marks {
        [] => number == 0,
        [mark, rest @ ..] => mark.restores(number % 2 == 1) && restores_number(rest, number / 2),
    }
}
