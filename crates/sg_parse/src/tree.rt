// The tree of a text of the interface language.
use sg_rules::{ListOf, RuleList, Spelled, SpelledList};
use std::marker::Model;

/// The parameters of a prototype.
pub type ParamList<'a> = ListOf<Param<'a>>;
/// The statements of a text.
pub type StatementList<'a> = ListOf<Statement<'a>>;

/// The facts at the head of a text: the value of each, in their order.
#[derive(Debug, Drop)]
pub struct Facts<'a> {
    /// The version of the language: 1, 2 or 3.
    pub version: u8,
    /// The service's name.
    pub service: Spelled<'a>,
    /// `none`, `same` or `cross`.
    pub parent: Spelled<'a>,
    /// `refuse` or `subtree`.
    pub close: Spelled<'a>,
    /// `true` or `false`, as in the facts below.
    pub global: Spelled<'a>,
    pub block: Spelled<'a>,
    pub has_data: Spelled<'a>,
    pub resc_data: Spelled<'a>,
    /// Whether every live descriptor is rebuilt after a boot before any call is served; false in a text of version 1.
    pub eager: bool,
}

/// A statement after the facts.
#[derive(Debug, Drop)]
pub enum Statement<'a> {
    /// A word over one function, as in `sm_creation(f);`.
    One {
        word: Spelled<'a>,
        fun: Spelled<'a>,
    },
    /// A word over two functions, or over a function and a field, as in `sm_state(f, g);`.
    Two {
        word: Spelled<'a>,
        first: Spelled<'a>,
        second: Spelled<'a>,
    },
    /// The prototype of a function.
    Proto {
        ret: Ret<'a>,
        name: Spelled<'a>,
        params: ParamList<'a>,
    },
    /// A creation that can't be done again, in a text of version 3: `sm_external(f);`.
    External {
        fun: Spelled<'a>,
    },
    /// The greatest number of a field, in a text of version 3: `desc_data_most(field, 9);`.
    Most {
        field: Spelled<'a>,
        most: Spelled<'a>,
    },
    /// Fields in all of which no two descriptors agree, in a text of version 3: `desc_data_unique(field, other);`.
    Unique {
        fields: SpelledList<'a>,
    },
    /// The rules by which a function answers, in a text of version 3: `sm_answer(f) { .. }`.
    Answer {
        fun: Spelled<'a>,
        rules: RuleList<'a>,
    },
}

/// What stands before a function's name.
#[derive(Debug, Drop)]
pub enum Ret<'a> {
    /// A type alone.
    Plain(TypeName<'a>),
    /// The returned word sets a field: `desc_data_retval(type, field)`.
    Set {
        ty: TypeName<'a>,
        field: Spelled<'a>,
    },
    /// The returned word is added to a field: `desc_data_retval_add(type, field)`.
    Add {
        ty: TypeName<'a>,
        field: Spelled<'a>,
    },
    /// The returned word is subtracted from a field, in a text of version 2: `desc_data_retval_sub(type, field)`.
    Sub {
        ty: TypeName<'a>,
        field: Spelled<'a>,
    },
}

/// A type: its names, at least one in a sentence's tree, and the number of stars after them.
#[derive(Debug, Drop)]
pub struct TypeName<'a> {
    pub names: SpelledList<'a>,
    pub stars: usize,
}

/// A parameter.
#[derive(Debug, Drop)]
pub struct Param<'a> {
    pub ty: TypeName<'a>,
    /// `desc`, `parent_desc`, `desc_data` or `desc_data_add`, where one stands there.
    pub form: Option<Spelled<'a>>,
    pub name: Spelled<'a>,
}

/// The tree of a text.
#[derive(Debug, Drop)]
pub struct Tree<'a> {
    pub facts: Facts<'a>,
    pub statements: StatementList<'a>,
}
