// What effects can make of a field.
ghost use Rattle.std.specs.Prelude.{◌≡◌, map, Some};
ghost use Rattle.sg_facts.specs.Walks.{effect_on, may_leave};

use sg_facts::Effect;

/// The effect on a field; None where none of these is on it.
pub fn effect_on(effects: &[(u8, Effect)], field: u8) -> Option<Effect>
    ensures { result ≡ effect_on (map (λ p. (p.0, p.1)) effects.now) field }
{
    match effects {
        [] => None,
        [(other, effect), ..] if *other == field => Some(*effect),
        [_, rest @ ..] => effect_on(rest, field),
    }
}

/// Whether an effect may leave a field set, or not set, that was set or not.
pub fn may_leave(effect: Option<Effect>, old: bool, new: bool) -> bool
    ensures { result ≡ may_leave effect old new }
{
    match effect {
        None => old == new,
        Some(Effect::SetCaller) => new,
        Some(Effect::SetArg(_) | Effect::SetRet) => true,
        Some(Effect::AddArg(_) | Effect::AddRet) => new || !old,
        Some(Effect::Clear) => !new,
        Some(Effect::SubOne | Effect::SubRet) => old || !new,
    }
}
