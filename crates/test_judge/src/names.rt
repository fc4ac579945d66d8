// The words of the rules may name fields: only in a rule they are no names.
use crate::cases::{changed, said};
use std::test::Fail;
use test_interfaces::SOCKETS;

// The words, each as a field's name stands in a prototype.
static WORDS: [&str; 20] = [
    "(refuse)",
    "(wait)",
    "(give)",
    "(if)",
    "(is)",
    "(not)",
    "(below)",
    "(above)",
    "(plus)",
    "(minus)",
    "(least)",
    "(greatest)",
    "(caller)",
    "(state)",
    "(row)",
    "(where)",
    "(else)",
    "(first)",
    "(some)",
    "(no)",
];

#[test]
fn words_of_rules_may_name_fields(rt: HostRuntime) -> Result<(), Fail> {
    for word in &WORDS {
        let text = changed(rt.alloc(), SOCKETS, b"(peer)", word.as_bytes())?;
        let line = said(rt.alloc(), text.as_slice())?;
        assert_eq!(rt; line.as_str(), "accepted sockets\n", "{word}");
    }
    Ok(())
}
