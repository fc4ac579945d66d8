// The standard interfaces with changes, each with its answer.
use crate::answers::{Case, try_each};
use crate::edits::Layout;
use crate::{effects, facts, flags, layout, left_out, names, pairs, prototypes, reach, standard};
use std::test::Fail;
use test_interfaces::{EVENT, LOCK, MM, RAMFS, SCHED, TIMER};

// A standard text, how its changed texts are laid out, and the changes with their answers.
type Table = (&'static [u8], Layout, &'static [Case]);

#[test]
fn standard_interfaces_are_accepted(rt: HostRuntime) -> Result<(), Fail> {
    let tables: [Table; 12] = [
        (LOCK, Layout::Lines, &standard::AS_IT_IS),
        (EVENT, Layout::Lines, &standard::AS_IT_IS),
        (MM, Layout::Lines, &standard::AS_IT_IS),
        (RAMFS, Layout::Lines, &standard::AS_IT_IS),
        (SCHED, Layout::Lines, &standard::AS_IT_IS),
        (TIMER, Layout::Lines, &standard::AS_IT_IS),
        (LOCK, Layout::OneLine, &standard::AS_IT_IS),
        (EVENT, Layout::OneLine, &standard::AS_IT_IS),
        (MM, Layout::OneLine, &standard::AS_IT_IS),
        (RAMFS, Layout::OneLine, &standard::AS_IT_IS),
        (SCHED, Layout::OneLine, &standard::AS_IT_IS),
        (TIMER, Layout::OneLine, &standard::AS_IT_IS),
    ];
    for (base, layout, cases) in tables {
        try_each(&rt, rt.alloc(), base, layout, cases)?;
    }
    Ok(())
}

#[test]
fn statements_left_out_or_twice(rt: HostRuntime) -> Result<(), Fail> {
    let tables: [Table; 12] = [
        (LOCK, Layout::Lines, &standard::LEFT_OUT),
        (LOCK, Layout::Lines, &standard::DOUBLED),
        (EVENT, Layout::Lines, &left_out::OF_EVENTS),
        (MM, Layout::Lines, &left_out::OF_PAGES),
        (RAMFS, Layout::Lines, &left_out::OF_FILES),
        (SCHED, Layout::Lines, &left_out::OF_THREADS),
        (TIMER, Layout::Lines, &left_out::OF_TIMERS),
        (LOCK, Layout::Lines, &layout::OF_LOCKS),
        (LOCK, Layout::Lines, &layout::TURNED),
        (LOCK, Layout::Returns, &standard::LEFT_OUT),
        (LOCK, Layout::Returns, &standard::DOUBLED),
        (LOCK, Layout::OneLine, &layout::ON_ONE_LINE),
    ];
    for (base, layout, cases) in tables {
        try_each(&rt, rt.alloc(), base, layout, cases)?;
    }
    Ok(())
}

#[test]
fn what_is_declared_otherwise(rt: HostRuntime) -> Result<(), Fail> {
    let tables: [Table; 36] = [
        (LOCK, Layout::Lines, &names::SERVICES),
        (LOCK, Layout::Lines, &names::DUPLICATES),
        (LOCK, Layout::Lines, &names::FUNCTIONS),
        (LOCK, Layout::Lines, &names::SECOND_NAMES),
        (EVENT, Layout::Lines, &names::OF_EVENTS),
        (LOCK, Layout::Lines, &names::OF_PARAMETERS),
        (LOCK, Layout::Lines, &prototypes::CALLERS),
        (LOCK, Layout::Lines, &prototypes::DESCRIPTORS),
        (MM, Layout::Lines, &prototypes::OF_PAGES),
        (RAMFS, Layout::Lines, &prototypes::OF_FILES),
        (LOCK, Layout::Lines, &prototypes::TOGETHER),
        (SCHED, Layout::Lines, &prototypes::OF_THREADS),
        (LOCK, Layout::Lines, &facts::OF_LOCKS),
        (MM, Layout::Lines, &facts::OF_PAGES),
        (RAMFS, Layout::Lines, &facts::OF_FILES),
        (EVENT, Layout::Lines, &facts::ALONE),
        (SCHED, Layout::Lines, &facts::OF_THREADS),
        (LOCK, Layout::Lines, &flags::MORE),
        (LOCK, Layout::Lines, &flags::STATES),
        (EVENT, Layout::Lines, &flags::KEPT),
        (MM, Layout::Lines, &flags::OF_PAGES),
        (RAMFS, Layout::Lines, &flags::OF_FILES),
        (SCHED, Layout::Lines, &flags::OF_THREADS),
        (LOCK, Layout::Lines, &flags::TOGETHER),
        (LOCK, Layout::Lines, &effects::OF_LOCKS),
        (EVENT, Layout::Lines, &effects::OF_EVENTS),
        (MM, Layout::Lines, &effects::OF_PAGES),
        (RAMFS, Layout::Lines, &effects::OF_FILES),
        (SCHED, Layout::Lines, &effects::OF_THREADS),
        (LOCK, Layout::Lines, &effects::TOGETHER),
        (LOCK, Layout::Lines, &pairs::TRANSITIONS),
        (LOCK, Layout::Lines, &pairs::RECOVER_STEPS),
        (LOCK, Layout::Lines, &pairs::BOTH),
        (EVENT, Layout::Lines, &pairs::OF_EVENTS),
        (MM, Layout::Lines, &pairs::OF_PAGES),
        (SCHED, Layout::Lines, &pairs::OF_THREADS),
    ];
    for (base, layout, cases) in tables {
        try_each(&rt, rt.alloc(), base, layout, cases)?;
    }
    Ok(())
}

#[test]
fn what_descriptors_come_to(rt: HostRuntime) -> Result<(), Fail> {
    let tables: [Table; 11] = [
        (LOCK, Layout::Lines, &reach::FACTS_ALONE),
        (EVENT, Layout::Lines, &reach::FACTS_ALONE),
        (MM, Layout::Lines, &reach::FACTS_ALONE),
        (RAMFS, Layout::Lines, &reach::FACTS_ALONE),
        (SCHED, Layout::Lines, &reach::FACTS_ALONE),
        (LOCK, Layout::Lines, &reach::NO_CREATIONS),
        (MM, Layout::Lines, &reach::OF_PAGES),
        (LOCK, Layout::Lines, &reach::OF_LOCKS),
        (EVENT, Layout::Lines, &reach::OF_EVENTS),
        (RAMFS, Layout::Lines, &reach::OF_FILES),
        (SCHED, Layout::Lines, &reach::OF_THREADS),
    ];
    for (base, layout, cases) in tables {
        try_each(&rt, rt.alloc(), base, layout, cases)?;
    }
    Ok(())
}
