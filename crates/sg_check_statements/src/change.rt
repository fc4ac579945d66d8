// What a text says is done to a field.
ghost use Rattle.std.specs.Prelude.{◌≡◌};
ghost use Rattle.sg_check_statements.specs.Effects.{same_effect};
ghost use Rattle.sg_check_statements.specs.Inside.Changes.{change_effect};

use sg_facts::Effect;

/// What a text says is done to a field. The number of an argument isn't bounded, as that of an `Effect` is.
#[derive(Clone, Copy)]
pub enum Change {
    /// The field is set to the caller.
    Caller,
    /// The field is set to an argument. The arguments count from 0.
    Arg(usize),
    /// An argument is added to the field. The arguments count from 0.
    MoreArg(usize),
    /// The field is set to the returned word.
    Ret,
    /// The returned word is added to the field.
    MoreRet,
    /// The field is set to 0 or to the empty text.
    Nothing,
    /// One is subtracted from the field.
    Less,
    /// The returned word is subtracted from the field.
    LessRet,
}

impl Change {
    /// Whether this is an effect of the service.
    pub fn is(self, effect: Effect) -> bool
        ensures same { result ≡ same_effect effect (change_effect self) }
        ensures back { result ≡ same_effect (change_effect self) effect }
    {
        match (effect, self) {
            (Effect::SetCaller, Change::Caller) => true,
            (Effect::SetArg(own), Change::Arg(number)) => usize::from(own) == number,
            (Effect::AddArg(own), Change::MoreArg(number)) => usize::from(own) == number,
            (Effect::SetRet, Change::Ret) => true,
            (Effect::AddRet, Change::MoreRet) => true,
            (Effect::Clear, Change::Nothing) => true,
            (Effect::SubOne, Change::Less) => true,
            (Effect::SubRet, Change::LessRet) => true,
            _ => false,
        }
    }
}
