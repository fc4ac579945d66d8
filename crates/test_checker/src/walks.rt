// The walks by which descriptors are rebuilt.
ghost use Rattle.sg_input.specs.sg_facts.Interface.{HasFewFields};

use crate::interfaces::{Pairs, interface};
use sg_input::{FunShape, Interface, Leaves, NoMemory, Parents, Shape, Walk, Walks, restores};
use sg_load::kind::{
    EventService, LockService, MmService, RamfsService, SchedService, TimerService,
};
use std::alloc::Global;
use std::process::Abort;
use std::test::Fail;

// What was made, its state, the set of fields, and the walk that is to be found.
type Case = (u8, u8, u8, Option<&'static [u8]>);

// A shape, the functions and recover steps that are declared, and what is to be found.
type Table = (Shape, u32, Pairs, &'static [Case]);

static LOCK_CASES: [Case; 7] = [
    (1, 1, 0, Some(&[1])),
    (1, 2, 1, Some(&[1, 2])),
    (1, 1, 1, None),
    (1, 3, 0, None),
    (1, 4, 0, None),
    (2, 2, 1, None),
    (1, 1, 2, None),
];

static EVENT_CASES: [Case; 3] = [
    (1, 1, 0, Some(&[1])),
    (1, 1, 1, Some(&[1, 3])),
    (1, 3, 1, None),
];

static MM_CASES: [Case; 7] = [
    (1, 1, 3, Some(&[1])),
    (1, 1, 1, Some(&[1])),
    (2, 2, 3, Some(&[2])),
    (2, 2, 0, Some(&[2])),
    (1, 2, 3, None),
    (3, 3, 0, None),
    (4, 4, 0, None),
];

static RAMFS_CASES: [Case; 3] = [
    (1, 1, 1, Some(&[1])),
    (1, 1, 3, Some(&[1, 4])),
    (1, 4, 3, None),
];

// The rank is a returned value, so it has to be placed even where it is 0.
static SCHED_CASES: [Case; 4] = [
    (1, 1, 3, Some(&[1, 7])),
    (1, 1, 1, Some(&[1, 7])),
    (1, 3, 3, Some(&[1, 7, 3])),
    (1, 6, 3, None),
];

// Where no function places it, nothing is found.
static UNPLACED_CASES: [Case; 3] = [(1, 1, 3, None), (1, 1, 1, None), (1, 3, 3, None)];

// When a timer is due is a returned value too; its clock is advanced only where it had ticks.
static TIMER_CASES: [Case; 4] = [
    (1, 1, 23, Some(&[1, 4])),
    (1, 1, 1, Some(&[1, 4])),
    (1, 1, 31, Some(&[1, 2, 4])),
    (1, 2, 1, None),
];

// A function without a name and parameters.
macro_rules! fun {
    ($flags:expr, $leaves:expr) => {
        FunShape {
            name: &[],
            kinds: &[],
            flags: $flags,
            leaves: $leaves,
            effects: &[],
        }
    };
}

// A shape of these functions, whose descriptors have no fields.
fn bare(funs: &'static [FunShape]) -> Shape {
    Shape {
        name: &[],
        parents: Parents::Never,
        subtree: false,
        global: true,
        block: false,
        has_data: true,
        resc_data: false,
        fields: &[],
        funs,
        moves: &[],
        steps: &[],
    }
}

static CHAIN: [FunShape; 9] = [
    fun!(FunShape::CREATION, Leaves::Own),
    fun!(0, Leaves::Own),
    fun!(0, Leaves::Own),
    fun!(0, Leaves::Own),
    fun!(0, Leaves::Own),
    fun!(0, Leaves::Own),
    fun!(0, Leaves::Own),
    fun!(0, Leaves::Own),
    fun!(0, Leaves::Own),
];

static CHAIN_STEPS: [(u8, u8); 8] = [
    (1, 2),
    (2, 3),
    (3, 4),
    (4, 5),
    (5, 6),
    (6, 7),
    (7, 8),
    (8, 9),
];

static CHAIN_CASES: [Case; 3] = [
    (1, 7, 0, Some(&[1, 2, 3, 4, 5, 6, 7])),
    (1, 8, 0, Some(&[1, 2, 3, 4, 5, 6, 7, 8])),
    (1, 9, 0, None),
];

static FORKS: [FunShape; 9] = [
    fun!(FunShape::CREATION, Leaves::Own),
    fun!(0, Leaves::Own),
    fun!(0, Leaves::Own),
    fun!(0, Leaves::Of(6)),
    fun!(0, Leaves::Of(6)),
    fun!(0, Leaves::Own),
    fun!(0, Leaves::Of(6)),
    fun!(FunShape::TERMINAL, Leaves::Of(6)),
    fun!(FunShape::QUERY, Leaves::Of(6)),
];

// Of walks as long the first place decides.
static TWO_STEPS: [(u8, u8); 4] = [(1, 3), (3, 4), (1, 2), (2, 5)];

static TWO_CASES: [Case; 1] = [(1, 6, 0, Some(&[1, 2, 5]))];

// A shorter walk goes before, by whatever functions.
static SHORTER_STEPS: [(u8, u8); 3] = [(1, 2), (2, 5), (1, 7)];

static SHORTER_CASES: [Case; 1] = [(1, 6, 0, Some(&[1, 7]))];

// A terminal function and a query stand in no walk.
static BARRED_STEPS: [(u8, u8); 2] = [(1, 8), (1, 9)];

static BARRED_CASES: [Case; 1] = [(1, 6, 0, None)];

// A walk of the first eight of these functions.
fn walk(funs: &[u8]) -> Result<Walk, NoMemory> {
    let mut walk = Walk::new();
    for fun in funs {
        if walk.len() < Walk::MOST {
            walk.push(*fun)?;
        }
    }
    Ok(walk)
}

static LOCK_STEPS: [(u8, u8); 3] = [(1, 2), (2, 3), (2, 4)];

// A walk of locks, the state and the set of fields that are asked for, and whether the walk restores them.
static RESTORED: [(&[u8], u8, u8, bool); 11] = [
    (&[], 0, 0, false),
    (&[1], 1, 0, true),
    (&[1], 2, 0, false),
    (&[1, 2], 2, 1, true),
    (&[1, 2], 2, 0, true),
    (&[1, 2], 2, 2, false),
    (&[1, 2, 3], 1, 0, true),
    (&[1, 2, 3], 1, 1, false),
    (&[1, 2, 4], 4, 1, false),
    (&[1, 3], 1, 0, false),
    (&[2], 2, 1, false),
];

// Of an interface each case finds its walk.
fn try_cases(
    rt: &impl Abort,
    alloc: Global,
    declared: &Interface,
    cases: &[Case],
) -> Result<(), NoMemory>
    requires { HasFewFields declared.now }
{
    let walks = Walks::new(alloc, declared)?;
    for (made, state, mask, want) in cases {
        let found = walks.get(*made, *state, *mask);
        let calls = found.as_ref().map(|walk| walk.as_slice());
        assert_eq!(rt; calls, *want, "made by {made}, in {state}, with {mask}");
    }
    Ok(())
}

// Each case of a table finds its walk.
fn try_table(rt: &impl Abort, alloc: Global, table: Table) -> Result<(), Fail> {
    let (shape, declared, steps, cases) = table;
    let declared = interface(alloc, shape, declared, &[], steps)?;
    Ok(try_cases(rt, alloc, &declared, cases)?)
}

// Whether a walk restores what is asked for.
fn restores_by(declared: &Interface, funs: &[u8], state: u8, mask: u8) -> Result<bool, NoMemory>
    requires { HasFewFields declared.now }
{
    let walk = walk(funs)?;
    Ok(restores(declared, &walk, state, mask))
}

// Each walk of locks restores what it should.
fn try_restored(rt: &impl Abort, locks: &Interface) -> Result<(), NoMemory>
    requires { HasFewFields locks.now }
{
    for (funs, state, mask, want) in &RESTORED {
        if funs.len() <= Walk::MOST {
            let got = restores_by(locks, funs, *state, *mask)?;
            assert_eq!(rt; got, *want, "{funs:?} in {state} with {mask}");
        }
    }
    Ok(())
}

#[test]
fn the_least_walk_of_a_service_is_found(rt: HostRuntime) -> Result<(), Fail> {
    let tables: [Table; 7] = [
        (LockService::shape(), 0b1111, &[(1, 2)], &LOCK_CASES),
        (EventService::shape(), 0b1111, &[(1, 3)], &EVENT_CASES),
        (MmService::shape(), 0b1111, &[], &MM_CASES),
        (RamfsService::shape(), 0b11111, &[(1, 4)], &RAMFS_CASES),
        (
            SchedService::shape(),
            0b1111_1111,
            &[(1, 3), (1, 7)],
            &SCHED_CASES,
        ),
        (
            SchedService::shape(),
            0b1011_1111,
            &[(1, 3), (1, 7)],
            &UNPLACED_CASES,
        ),
        (
            TimerService::shape(),
            0b111_1111,
            &[(1, 2), (1, 4)],
            &TIMER_CASES,
        ),
    ];
    for table in tables {
        try_table(&rt, rt.alloc(), table)?;
    }
    Ok(())
}

#[test]
fn the_least_walk_is_found(rt: HostRuntime) -> Result<(), Fail> {
    let chain = bare(&CHAIN);
    let forks = bare(&FORKS);
    let tables: [Table; 4] = [
        (chain, u32::MAX, &CHAIN_STEPS, &CHAIN_CASES),
        (forks, u32::MAX, &TWO_STEPS, &TWO_CASES),
        (forks, u32::MAX, &SHORTER_STEPS, &SHORTER_CASES),
        (forks, u32::MAX, &BARRED_STEPS, &BARRED_CASES),
    ];
    for table in tables {
        try_table(&rt, rt.alloc(), table)?;
    }
    Ok(())
}

#[test]
fn walks_restore_what_they_restore(rt: HostRuntime) -> Result<(), Fail> {
    let locks = interface(rt.alloc(), LockService::shape(), 0b1111, &[], &LOCK_STEPS)?;
    Ok(try_restored(&rt, &locks)?)
}
