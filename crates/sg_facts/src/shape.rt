// The finite facts of a service.
ghost use Rattle.std.specs.Prelude.{◌≡◌, ◌||◌, ◌+◌, ◌<◌, ◌^◌, map};
ghost use Rattle.std.specs.List.{list_any};
ghost use Rattle.sg_facts.specs.Facts.{facts_of, fun_at, fun_of_shape, is_text_kind, shows_bytes, takes_desc, takes_parent};
ghost use Rattle.sg_facts.specs.Inside.Rows.{left_by};

use crate::interface::has_flag;

/// Which parents a descriptor may have.
#[derive(Clone, Copy, Debug, PartialEq, Eq)]
pub enum Parents {
    /// None.
    Never,
    /// A descriptor of the same client, or none: it is a root then.
    Same,
    /// A descriptor of any client.
    Cross,
}

/// What a parameter after the caller is.
#[derive(Clone, Copy, Debug, PartialEq, Eq)]
pub enum Kind {
    /// The descriptor that the function is called on.
    Desc,
    /// The parent of the descriptor that the function makes.
    Parent,
    /// A number.
    Word,
    /// A text.
    Text,
}

/// The state that an Ok of a function leaves. States are named by functions.
#[derive(Clone, Copy, Debug, PartialEq, Eq)]
pub enum Leaves {
    /// The function's own; also of a terminal function and of a query, which leave none.
    Own,
    /// The one before the call.
    Same,
    /// The state of another function, by its number.
    Of(u8),
}

/// What an Ok of a function does to a field.
#[derive(Clone, Copy, Debug, PartialEq, Eq)]
pub enum Effect {
    /// Sets it to the caller.
    SetCaller,
    /// Sets it to an argument. The arguments of a call count from 0; its descriptor or parent is none of them.
    SetArg(u8),
    /// Adds an argument.
    AddArg(u8),
    /// Sets it to the first word of the reply.
    SetRet,
    /// Adds the first word of the reply.
    AddRet,
    /// Sets it to 0, or to the empty text.
    Clear,
    /// Subtracts one.
    SubOne,
    /// Subtracts the first word of the reply, which is at most the field.
    SubRet,
}

/// A field of a service's rows.
#[derive(Clone, Copy, Debug)]
pub struct FieldShape {
    pub name: &'static [u8],
    /// Whether it is a text; else it is a word.
    pub text: bool,
}

/// A function of a service.
#[derive(Clone, Copy, Debug)]
pub struct FunShape {
    pub name: &'static [u8],
    /// The parameters after the caller.
    pub kinds: &'static [Kind],
    /// The sum of the flags that it has: `CREATION` to `DATA`.
    pub flags: u8,
    pub leaves: Leaves,
    /// What an Ok does to each field, by field numbers from 0, ascending. A field without a pair stays.
    pub effects: &'static [(u8, Effect)],
}

// The bits of a function's flags.
pub(crate) const CREATION_BIT: u8 = 0;

const TERMINAL_BIT: u8 = 1;

const BLOCK_BIT: u8 = 2;

const WAKEUP_BIT: u8 = 3;

const QUERY_BIT: u8 = 4;

const ALL_BIT: u8 = 5;

pub(crate) const DATA_BIT: u8 = 6;

impl FunShape {
    /// It makes a descriptor.
    pub const CREATION: u8 = 1;
    /// It ends its descriptor.
    pub const TERMINAL: u8 = 2;
    /// It may block.
    pub const BLOCK: u8 = 4;
    /// Its Ok wakes those who are blocked on its descriptor.
    pub const WAKEUP: u8 = 8;
    /// It changes no descriptor.
    pub const QUERY: u8 = 16;
    /// It looks at all live rows.
    pub const ALL: u8 = 32;
    /// It reads or writes the file of its descriptor.
    pub const DATA: u8 = 64;

    /// Whether it makes a descriptor.
    pub fn is_creation(&self) -> bool
        ensures { result ≡ (fun_of_shape self.now).creation }
    {
        has_flag(self.flags, CREATION_BIT)
    }

    /// Whether it ends its descriptor.
    pub fn is_terminal(&self) -> bool
        ensures { result ≡ (fun_of_shape self.now).terminal }
    {
        has_flag(self.flags, TERMINAL_BIT)
    }

    /// Whether it may block.
    pub fn may_block(&self) -> bool
        ensures { result ≡ (fun_of_shape self.now).block }
    {
        has_flag(self.flags, BLOCK_BIT)
    }

    /// Whether its Ok wakes those who are blocked on its descriptor.
    pub fn wakes(&self) -> bool
        ensures { result ≡ (fun_of_shape self.now).wakeup }
    {
        has_flag(self.flags, WAKEUP_BIT)
    }

    /// Whether it looks at all live rows.
    pub fn looks_at_all(&self) -> bool
        ensures { result ≡ (fun_of_shape self.now).all }
    {
        has_flag(self.flags, ALL_BIT)
    }

    /// Whether it reads or writes the file of its descriptor.
    pub fn uses_file(&self) -> bool
        ensures { result ≡ (fun_of_shape self.now).uses_file }
    {
        has_flag(self.flags, DATA_BIT)
    }

    /// Whether it changes no descriptor.
    pub fn is_query(&self) -> bool
        ensures { result ≡ (fun_of_shape self.now).query }
    {
        has_flag(self.flags, QUERY_BIT)
    }

    /// Whether it is called on a descriptor.
    pub fn takes_desc(&self) -> bool
        ensures { result ≡ takes_desc (fun_of_shape self.now) }
    {
        self.kinds.iter().any(|kind| matches!(kind, Kind::Desc))
    }

    /// Whether it takes a parent.
    pub fn takes_parent(&self) -> bool
        ensures { result ≡ takes_parent (fun_of_shape self.now) }
    {
        self.kinds.iter().any(|kind| matches!(kind, Kind::Parent))
    }

    /// Whether it takes a descriptor or a parent.
    pub fn takes_id(&self) -> bool
        ensures { result ≡ (takes_desc (fun_of_shape self.now) || takes_parent (fun_of_shape self.now)) }
    {
        self.takes_desc() || self.takes_parent()
    }

    /// Whether an Ok of it shows its bytes where it is printed: it uses the file of its descriptor and takes no text.
    pub fn shows_bytes(&self) -> bool
        ensures { result ≡ shows_bytes (fun_of_shape self.now) }
    {
        self.uses_file() && !self.takes_text()
    }

    // Whether it takes a text.
    fn takes_text(&self) -> bool
        ensures { result ≡ list_any is_text_kind (fun_of_shape self.now).kinds }
    {
        self.kinds.iter().any(|kind| matches!(kind, Kind::Text))
    }
}

/// The facts of a service. Functions are numbered from 1 in the order of `funs`, fields from 0 in that of `fields`.
#[derive(Clone, Copy, Debug)]
pub struct Shape {
    pub name: &'static [u8],
    pub parents: Parents,
    /// Whether a terminal function takes the descendants along; else it is refused while there are children.
    pub subtree: bool,
    /// Whether every client may use every descriptor; else each client uses those that it made.
    pub global: bool,
    /// Whether some function may block.
    pub block: bool,
    /// Whether rows have fields.
    pub has_data: bool,
    /// Whether descriptors have files.
    pub resc_data: bool,
    pub fields: &'static [FieldShape],
    pub funs: &'static [FunShape],
    /// The pairs of a state and a function that may be called in it.
    pub moves: &'static [(u8, u8)],
    /// The pairs of a state and a function that may be replayed in it.
    pub steps: &'static [(u8, u8)],
}

impl Leaves {
    /// The state after a function that is called in a state.
    pub fn state_after(self, fun: u8, state: u8) -> u8
        ensures { result ≡ left_by self fun state }
    {
        match self {
            Leaves::Own => fun,
            Leaves::Same => state,
            Leaves::Of(other) => other,
        }
    }
}

// What stands for a function that a shape hasn't.
const NO_FUN: FunShape = FunShape {
    name: &[],
    kinds: &[],
    flags: 0,
    leaves: Leaves::Own,
    effects: &[],
};

impl Shape {
    /// The function of a number, from 1; one without a name, parameters, flags and effects where there is none.
    pub fn fun(&self, number: u8) -> FunShape
        ensures { fun_of_shape result ≡ fun_at (facts_of self.now).funs number }
    {
        if number == 0 {
            return NO_FUN;
        }
        fun_in(self.funs, usize::from(number) - 1)
    }
}

// The function at a place, from 0.
fn fun_in(funs: &[FunShape], at: usize) -> FunShape
    requires { at < 2 ^ 8 }
    ensures { fun_of_shape result ≡ fun_at (map fun_of_shape funs.now) (at + 1) }
{
    match funs.get(at) {
        Some(fun) => *fun,
        None => NO_FUN,
    }
}
