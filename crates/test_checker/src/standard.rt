// A standard interface as it is, and each statement of that of locks left out, and twice.

use crate::answers::Case;
use crate::edits::Edit::{Twice, Without};
use sg_input::CheckKind::{
    DuplicateName, NoWalk, UnknownFunction, Unreached, WrongEffect, WrongFlag,
};

/// A standard interface as it is.
pub static AS_IT_IS: [Case; 1] = [(&[], None)];

/// Each statement of locks left out.
pub static LEFT_OUT: [Case; 16] = [
    (&[Without(10)], Some((WrongFlag, 20, 15))),
    (&[Without(11)], Some((WrongFlag, 24, 5))),
    (&[Without(12)], Some((WrongFlag, 21, 5))),
    (&[Without(13)], Some((WrongFlag, 22, 5))),
    (&[Without(14)], Some((WrongFlag, 22, 5))),
    (&[Without(15)], Some((Unreached, 22, 5))),
    (&[Without(16)], None),
    (&[Without(17)], None),
    (&[Without(18)], Some((Unreached, 22, 5))),
    (&[Without(19)], None),
    (&[Without(20)], Some((NoWalk, 21, 5))),
    (&[Without(21)], Some((UnknownFunction, 10, 13))),
    (&[Without(22)], Some((UnknownFunction, 12, 10))),
    (&[Without(23)], Some((UnknownFunction, 13, 11))),
    (&[Without(24)], Some((WrongEffect, 23, 5))),
    (&[Without(25)], Some((UnknownFunction, 11, 13))),
];

/// Each statement of locks twice.
pub static DOUBLED: [Case; 16] = [
    (&[Twice(10)], None),
    (&[Twice(11)], None),
    (&[Twice(12)], None),
    (&[Twice(13)], None),
    (&[Twice(14)], None),
    (&[Twice(15)], None),
    (&[Twice(16)], None),
    (&[Twice(17)], None),
    (&[Twice(18)], None),
    (&[Twice(19)], None),
    (&[Twice(20)], None),
    (&[Twice(21)], Some((DuplicateName, 22, 15))),
    (&[Twice(22)], Some((DuplicateName, 23, 5))),
    (&[Twice(23)], Some((DuplicateName, 24, 5))),
    (&[Twice(24)], None),
    (&[Twice(25)], Some((DuplicateName, 26, 5))),
];
