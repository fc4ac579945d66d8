// How a walk begins and goes on.
ghost use Rattle.std.specs.Prelude.{◌≡◌, true, false, length, map, MatchOption};
ghost use Rattle.sg_facts.specs.Interface.{steps_on, HasFewFields};
ghost use Rattle.sg_facts.specs.Walks.{first_spot, next_spot, unset};
ghost use Rattle.sg_facts.specs.Inside.Walking.{may_begin, may_go_on};
ghost use Rattle.sg_walk.specs.Inside.Spots.{shown, is_goal};
ghost use Rattle.sg_walk.specs.Marks.{shown_marks};

use crate::spot::{FieldState, Goal, Spot, marked, restores_number};
use sg_facts::{Interface, MOST_FIELDS};

/// Where a walk has come to after its creation; None exactly where no walk begins with this function.
pub fn begin(iface: &Interface, made: u8) -> Option<Spot>
    requires { HasFewFields iface.now }
    ensures { MatchOption result (may_begin iface.now made ≡ false)
        (λ spot. (may_begin iface.now made ≡ true) × (shown iface.now spot ≡ first_spot iface.now.facts made)) }
{
    let fun = iface.fun(made);
    if !(iface.declares(made) && fun.is_creation() && !fun.is_terminal() && !fun.is_query()) {
        return None;
    }
    Some(Spot {
        state: fun.leaves.state_after(made, made),
        marks: marked(none_set(iface), field_count(iface), fun.effects),
    })
}

/// Where a walk has come to after one more function, by whether that is a recover step there; None exactly where the walk
/// can't go on with it.
pub fn go_on(iface: &Interface, spot: Spot, next: u8, is_step: bool) -> Option<Spot>
    requires few { HasFewFields iface.now }
    requires step { is_step ≡ steps_on iface.now spot.state next }
    ensures { let s = shown iface.now spot in
        MatchOption result (may_go_on iface.now s next ≡ false)
        (λ new. (may_go_on iface.now s next ≡ true) × (shown iface.now new ≡ next_spot iface.now.facts next s)) }
{
    if !(is_step && iface.declares(next)) {
        return None;
    }
    let fun = iface.fun(next);
    if fun.is_terminal() || fun.is_query() {
        return None;
    }
    Some(Spot {
        state: fun.leaves.state_after(next, spot.state),
        marks: marked(spot.marks, field_count(iface), fun.effects),
    })
}

/// Whether a spot is where the sought state and fields are restored.
pub fn is_goal(iface: &Interface, spot: Spot, goal: Goal) -> bool
    requires { HasFewFields iface.now }
    ensures { result ≡ is_goal (shown iface.now spot) goal }
{
    spot.state == goal.state && restores_number(&spot.marks[..field_count(iface)], goal.mask)
}

// The marks where nothing is set yet.
fn none_set(iface: &Interface) -> [FieldState; MOST_FIELDS]
    requires { HasFewFields iface.now }
    ensures { shown_marks (length iface.now.facts.fields) result ≡ map (λ f. unset) iface.now.facts.fields }
{
    [FieldState::Unset; MOST_FIELDS]
}

// The number of fields of a row.
fn field_count(iface: &Interface) -> usize
    ensures { result ≡ length iface.now.facts.fields }
{
    iface.shape.fields.len()
}
