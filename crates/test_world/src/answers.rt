// Whether texts tell what steps did, and what was replied.
use crate::words::{Written, first_word};
use sg_discard::Did;
use sg_facts::{Code, Good, Reply};

/// Whether a text tells what a step did: a word, or the reply that it handed over.
pub fn tells(text: &str, did: &Did) -> bool {
    match did {
        Did::Skipped => text == "skipped",
        Did::Struck => text == "struck",
        Did::Booted => text == "booted",
        Did::Replayed => text == "replayed",
        Did::Loaded => text == "loaded",
        Did::Served => text == "served",
        Did::Blocked => text == "blocked",
        Did::Lost => text == "lost",
        Did::Answered(reply) => tells_reply(text, reply),
    }
}

/// Whether a text tells a reply: `refused Held`, or `ok` with what it gives after, as in `ok #1 2 "a"`.
pub fn tells_reply(text: &str, reply: &Reply) -> bool {
    let (what, behind) = first_word(text);
    match reply {
        Reply::Ok(good) => what == "ok" && tells_good(behind, good),
        Reply::Refused(code) => what == "refused" && behind == name_of(*code),
    }
}

// Whether a text tells all that an Ok gives: its descriptor, where it has one, its words, and its bytes, where it has some.
fn tells_good(text: &str, good: &Good) -> bool {
    let mut desc = 0;
    let mut words = good.words.as_slice();
    let mut bytes: &[u8] = b"";
    for word in text.split_whitespace() {
        match (Written::read(word), words) {
            (Some(Written::Desc(id)), _) => desc = id,
            (Some(Written::Text(text)), _) => bytes = text.as_bytes(),
            (Some(Written::Word(number)), [first, more @ ..]) if number == *first => words = more,
            _ => return false,
        }
    }
    desc == good.desc && words.is_empty() && bytes == good.bytes.as_slice()
}

// The name of a code.
fn name_of(code: Code) -> &'static str {
    match code {
        Code::NoDesc => "NoDesc",
        Code::NoParent => "NoParent",
        Code::BadState => "BadState",
        Code::HasChildren => "HasChildren",
        Code::Full => "Full",
        Code::NotOwner => "NotOwner",
        Code::Held => "Held",
        Code::Occupied => "Occupied",
        Code::NotFound => "NotFound",
        Code::Overflow => "Overflow",
        Code::Gap => "Gap",
        Code::TooBig => "TooBig",
        Code::BadName => "BadName",
    }
}
