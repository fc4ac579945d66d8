// Which bytes are a text.
use sg_base::{Text, TextFault, is_text_byte};
use std::alloc::{AllocError, Global};
use std::test::Fail;

// How many bytes stand before a bad one, the bad byte, if there is one, the whole length, and the answer: the place of the fault, if it
// has one.
type Case = (usize, Option<u8>, usize, Result<(), Option<usize>>);

static CASES: [Case; 15] = [
    (0, None, 0, Ok(())),
    (0, None, 1, Ok(())),
    (0, None, 256, Ok(())),
    (0, None, 257, Err(None)),
    (7, Some(b'"'), 257, Err(None)),
    (0, Some(0x00), 1, Err(Some(0))),
    (0, Some(0x1F), 256, Err(Some(0))),
    (1, Some(0x7F), 256, Err(Some(1))),
    (100, Some(0x80), 256, Err(Some(100))),
    (254, Some(0xFF), 256, Err(Some(254))),
    (255, Some(b'"'), 256, Err(Some(255))),
    (255, Some(b'~'), 256, Ok(())),
    (255, Some(b' '), 256, Ok(())),
    (255, Some(b'!'), 256, Ok(())),
    (255, Some(b'#'), 256, Ok(())),
];

// So many bytes, with one of them in a place.
fn bytes_with(
    alloc: Global,
    front: usize,
    bad: Option<u8>,
    length: usize,
) -> Result<Vec<u8>, AllocError> {
    let mut bytes = vec![in alloc; b'a'; length]?;
    if let (Some(bad), Some(place)) = (bad, bytes.get_mut(front)) {
        *place = bad;
    }
    Ok(bytes)
}

// The answer on bytes; those of a text are the text's.
fn answer(alloc: Global, bytes: &[u8]) -> Result<Result<(), Option<usize>>, Fail> {
    match Text::new(alloc, bytes) {
        Ok(text) if text.bytes() == bytes => Ok(Ok(())),
        Ok(_) => Err("other bytes than were given")?,
        Err(TextFault::TooLong) => Ok(Err(None)),
        Err(TextFault::BadByte { at }) => Ok(Err(Some(at))),
        Err(fault) => Err(fault)?,
    }
}

// Whether a case has its answer.
fn is_answered(alloc: Global, case: &Case) -> Result<bool, Fail> {
    let (front, bad, length, want) = case;
    let bytes = bytes_with(alloc, *front, *bad, *length)?;
    Ok(answer(alloc, bytes.as_slice())? == *want)
}

#[test]
fn takes_texts_and_names_the_first_fault(rt: HostRuntime) -> Result<(), Fail> {
    for case in &CASES {
        let (front, bad, length, _) = case;
        assert!(rt;
            is_answered(rt.alloc(), case)?,
            "{bad:?} at {front} of {length} bytes"
        );
    }
    assert!(rt; is_text_byte(b'~') && !is_text_byte(b'"'));
    Ok(())
}
