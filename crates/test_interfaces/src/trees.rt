// What the tree of a text keeps, and texts that are printed as they stand.
use crate::{
    CHANNEL, DEVICE, EVENT, EVENT2, LEASE, LOCK, MM, RAMFS, RWLOCK, SCHED, SEMAPHORE, SOCKETS,
    TIMER, in_version_2,
};
use sg_print::{Ret, Rule, Statement, parse, print};
use std::test::Fail;

// A statement of each kind, returns of each kind, forms, and stars.
static EACH_KIND: &[u8] = b"service_global_info = {\n\
\x20   service = a,\n\
\x20   desc_has_parent = cross,\n\
\x20   desc_close = subtree,\n\
\x20   desc_is_global = true,\n\
\x20   desc_block = false,\n\
\x20   desc_has_data = true,\n\
\x20   resc_has_data = false\n\
};\n\
sm_creation(f);\n\
sm_creation(f);\n\
sm_state(f, g);\n\
desc_data_retval(char *, x) f(spdid_t spdid, const char **desc_data(name));\n\
desc_data_retval_add(long, y) g(spdid_t desc(id));\n\
char *h(spdid_t spdid);\n";

// Each statement that only a text of version 3 has, and each rule, relation, operator and operand.
static EACH_RULE: &[u8] = b"service_global_info = {\n\
\x20   version = 3,\n\
\x20   service = a,\n\
\x20   desc_has_parent = none,\n\
\x20   desc_close = refuse,\n\
\x20   desc_is_global = true,\n\
\x20   desc_block = true,\n\
\x20   desc_has_data = true,\n\
\x20   resc_has_data = false,\n\
\x20   desc_recover = eager\n\
};\n\
sm_external(f);\n\
desc_data_most(x, 007);\n\
desc_data_unique(x);\n\
desc_data_unique(x, y, z);\n\
desc_data_retval_sub(long *, x) f(spdid_t spdid);\n\
sm_answer(f) {\n\
\x20   refuse Held if owner is caller, $1 above 0;\n\
\x20   wait if x is not state, y below 18446744073709551616 plus z;\n\
\x20   give 1;\n\
\x20   give greatest x greatest $2 if x minus 1 is y least f;\n\
\x20   give row where state is f, x above caller else NotFound;\n\
\x20   give first x else Held;\n\
\x20   give first due minus now, tag where state is f else NotFound;\n\
}\n\
sm_answer(g) {\n\
\x20   refuse Occupied if some row where x is $1;\n\
\x20   wait if x is 1, y is 2, no row where y is 2, state is not g;\n\
\x20   give 0 if no row where x below y;\n\
}\n";

#[test]
fn canonical_texts_come_back(rt: HostRuntime) -> Result<(), Fail> {
    for (text, count) in [
        (EACH_KIND, 6),
        (EACH_RULE, 7),
        (LOCK, 16),
        (EVENT, 15),
        (EVENT2, 18),
        (MM, 13),
        (RAMFS, 17),
        (SCHED, 29),
        (TIMER, 24),
    ] {
        let tree = parse(rt.alloc(), text)?;
        assert!(rt;
            tree.statements.len() == count,
            "a text of {count} statements"
        );
        let printed = print(rt.alloc(), &tree)?;
        assert!(rt; printed.as_slice() == text, "a text of {count} statements");
    }
    Ok(())
}

#[test]
fn a_text_of_version_2_keeps_its_word(rt: HostRuntime) -> Result<(), Fail> {
    for (word, eager) in [("demand", false), ("eager", true)] {
        let text = in_version_2(rt.alloc(), LOCK, word)?;
        let tree = parse(rt.alloc(), &text)?;
        assert!(rt;
            tree.facts.version == 2 && tree.facts.eager == eager,
            "{word}"
        );
        let printed = print(rt.alloc(), &tree)?;
        assert!(rt; printed.as_slice() == text.as_slice(), "{word}");
    }
    Ok(())
}

#[test]
fn printed_texts_of_version_3_come_back(rt: HostRuntime) -> Result<(), Fail> {
    for text in [SEMAPHORE, RWLOCK, CHANNEL, LEASE, DEVICE, SOCKETS] {
        let tree = parse(rt.alloc(), text)?;
        let printed = print(rt.alloc(), &tree)?;
        let again = parse(rt.alloc(), printed.as_slice())?;
        let twice = print(rt.alloc(), &again)?;
        assert!(rt;
            tree.facts.version == 3 && again.facts.version == 3,
            "{text:?}"
        );
        assert!(rt; again.statements.len() == tree.statements.len(), "{text:?}");
        assert!(rt; twice.as_slice() == printed.as_slice(), "{text:?}");
    }
    // a text without comments, as it is written
    let tree = parse(rt.alloc(), SEMAPHORE)?;
    let printed = print(rt.alloc(), &tree)?;
    assert!(rt; printed.as_slice() == SEMAPHORE);
    Ok(())
}

// The word of a rule, and its place.
fn begins(rule: &Rule<'_>) -> (&'static [u8], usize) {
    match rule {
        Rule::Refuse { at, .. } => (b"refuse", *at),
        Rule::Wait { at, .. } => (b"wait", *at),
        Rule::Give { at, .. } => (b"give ", *at),
        Rule::GiveRow { at, .. } => (b"give row ", *at),
        Rule::GiveFirst { at, .. } => (b"give first ", *at),
    }
}

#[test]
fn rules_keep_their_order_and_places(rt: HostRuntime) -> Result<(), Fail> {
    let tree = parse(rt.alloc(), EACH_RULE)?;
    let Some(Statement::Answer { fun, rules }) = tree.statements.get(5) else {
        return Err("no rules")?;
    };
    assert!(rt; fun.slice == b"f".as_slice() && rules.len() == 7);
    let mut last = fun.at;
    for rule in rules.as_slice() {
        let (word, at) = begins(rule);
        let behind = EACH_RULE.get(at..).unwrap_or(b"");
        assert!(rt; at > last && behind.starts_with(word), "the rule at {at}");
        last = at;
    }
    Ok(())
}

#[test]
fn comments_and_blanks_are_dropped(rt: HostRuntime) -> Result<(), Fail> {
    let mut text = Vec::from_slice(rt.alloc(), b"// locks\r\n/* of one owner */")?;
    text.extend_from_slice(LOCK)?;
    text.extend_from_slice(b"\t/*/ no end yet */ ")?;
    let tree = parse(rt.alloc(), text.as_slice())?;
    let printed = print(rt.alloc(), &tree)?;
    assert!(rt; printed.as_slice() == LOCK);
    Ok(())
}

#[test]
fn names_keep_their_bytes_and_places(rt: HostRuntime) -> Result<(), Fail> {
    let tree = parse(rt.alloc(), RAMFS)?;
    let Some(
        Statement::Proto {
            ret: Ret::Add { ty, field },
            name,
            ..
        },
    ) = tree.statements.get(13)
    else {
        return Err("no prototype that adds")?;
    };
    assert!(rt; ty.stars == 0);
    assert!(rt; field.slice == b"offset".as_slice() && field.at == 607);
    assert!(rt; name.slice == b"tread".as_slice());
    let facts = parse(rt.alloc(), LOCK)?.facts;
    assert!(rt; facts.service.slice == b"lock".as_slice() && facts.service.at == 38);
    Ok(())
}
