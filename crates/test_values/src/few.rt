// Arguments and words, of which few stand in the value itself and more take memory.
use sg_base::{
    Args, LentArgs, LentValue, ListRoom, NoMemory, SpareList, Text, TryCopy, Value, Words,
};
use std::alloc::Global;
use std::process::Abort;
use std::test::Fail;

// Words that come one by one.
fn pushed(alloc: Global, words: &[u64]) -> Result<Words, NoMemory> {
    let mut list = Words::new(alloc);
    for word in words {
        list.push(*word)?;
    }
    Ok(list)
}

// Words are the same, however they came.
fn keeps_words(rt: &impl Abort, alloc: Global, words: &[u64]) -> Result<(), NoMemory> {
    let list = pushed(alloc, words)?;
    assert_eq!(rt; list.as_slice(), words);
    assert_eq!(rt; list.len(), words.len());
    assert_eq!(rt; list.is_empty(), words.is_empty());
    assert_eq!(rt; list.get(0).copied(), words.first().copied());
    assert_eq!(rt; list.get(words.len()).copied(), None);
    assert!(rt; list == Words::from_slice(alloc, words)?);
    assert!(rt; list == Words::from_vec(Vec::from_slice(alloc, words)?));
    assert!(rt; list == list.copy(alloc)?);
    assert!(rt; list != pushed(alloc, &[9, 9, 9, 9, 9])?);
    Ok(())
}

#[test]
fn keeps_few_words_and_more(rt: HostRuntime) -> Result<(), Fail> {
    let alloc = rt.alloc();
    let words = [5, u64::MAX, 0, 7];
    for count in 0..=words.len() {
        keeps_words(&rt, alloc, &words[..count])?;
    }
    Ok(())
}

// Words are filled into room.
fn fills_words(rt: &impl Abort, alloc: Global, words: &[u64; 3]) -> Result<(), NoMemory> {
    let room = ListRoom::<u64>::new(alloc, 3)?;
    assert_eq!(rt; room.fill_words(words).as_slice(), words.as_slice());
    let mut spare = SpareList::<u64>::new(alloc);
    spare.reserve(alloc, 3)?;
    assert_eq!(rt; spare.fill_words(&[8]).as_slice(), [8].as_slice());
    assert_eq!(rt; spare.fill_words(words).as_slice(), words.as_slice());
    Ok(())
}

#[test]
fn fills_few_words_and_more(rt: HostRuntime) -> Result<(), Fail> {
    Ok(fills_words(&rt, rt.alloc(), &[4, 5, 6])?)
}

// A value: a text for a letter, and else a word.
fn value_of(alloc: Global, letter: u8) -> Result<Value, Fail> {
    if letter.is_ascii_alphabetic() {
        return Ok(Value::Text(Text::new(alloc, &[letter])?));
    }
    Ok(Value::Word(u64::from(letter)))
}

// Arguments, one for each letter.
fn args_of(alloc: Global, letters: &str) -> Result<Args, Fail> {
    let mut args = Args::new(alloc);
    for letter in letters.as_bytes() {
        args.push(value_of(alloc, *letter)?)?;
    }
    Ok(args)
}

// The same arguments, in a vector.
fn listed(alloc: Global, letters: &str) -> Result<Args, Fail> {
    let mut values = Vec::new(alloc);
    for letter in letters.as_bytes() {
        values.push(value_of(alloc, *letter)?)?;
    }
    Ok(Args::from_vec(values))
}

// The letter of the argument at a place.
fn letter_at(args: &Args, at: usize) -> Option<u64> {
    match args.get(at) {
        Some(LentValue::Word(word)) => Some(word),
        Some(LentValue::Text(text)) => text.bytes().first().map(|byte| u64::from(*byte)),
        None => None,
    }
}

// The number of arguments, as they are lent.
fn lent_len(args: &Args) -> usize {
    match args.lent() {
        LentArgs::Words(words) => words.len(),
        LentArgs::Values(values) => values.len(),
    }
}

// Arguments are the same, however they came.
fn keeps_args(rt: &impl Abort, alloc: Global, letters: &str) -> Result<(), Fail> {
    let args = args_of(alloc, letters)?;
    assert_eq!(rt; args.len(), letters.len());
    assert_eq!(rt; args.is_empty(), letters.is_empty());
    assert_eq!(rt; lent_len(&args), letters.len());
    for (at, letter) in letters.as_bytes().iter().enumerate() {
        assert_eq!(rt; letter_at(&args, at), Some(u64::from(*letter)));
    }
    assert_eq!(rt; letter_at(&args, letters.len()), None);
    assert!(rt; args == listed(alloc, letters)?);
    assert!(rt; listed(alloc, letters)? == args);
    assert!(rt; args == args.copy(alloc)?);
    assert!(rt; args != args_of(alloc, "99999")?);
    Ok(())
}

#[test]
fn keeps_few_arguments_and_more(rt: HostRuntime) -> Result<(), Fail> {
    for letters in ["", "1", "12", "123", "a", "ab", "1a", "a1", "12a", "abc"] {
        keeps_args(&rt, rt.alloc(), letters)?;
    }
    Ok(())
}
