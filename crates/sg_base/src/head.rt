// What is kept of a record beside its words.
ghost use Rattle.std.specs.Prelude.{◌≡◌, ℕ, List, slice_index};
ghost use Rattle.sg_base.specs.Inside.Heads.{args_in, brief_at, extra_count, form_of, gave_form_of, gave_in, head_of, part, record_at, walk_count, why_in, words_in};
ghost use Rattle.sg_base.specs.Kinds.{gave_kind, kind_of};
ghost use Rattle.sg_base.specs.Lent.{record_in};

use crate::{Brief, Code, Gave, GaveKind, Lent, LentBrief, RecordKind, Why};

/// How a record is kept: whole, or in brief as the call of its own client, or as the call of this place in a walk.
#[derive(Clone, Copy, Debug)]
pub(crate) enum Form {
    Whole,
    Own,
    Walk(u8),
}

/// What a call gave, without its descriptor: `Named` has one, which stands among the words.
#[derive(Clone, Copy, Debug)]
pub(crate) enum GaveForm {
    Good,
    Named,
    Refused(Code),
    Blocks,
    Stopped,
    NoMemory,
}

/// What is kept of a record beside its words. In brief these are, from its place on: the arguments, the words of the reply, the id and the
/// client of a walk's call, and the descriptor that was given. Of a record that is kept whole there is its place among those alone.
#[derive(Clone, Copy, Debug)]
pub(crate) struct Head {
    pub(crate) points: u64,
    pub(crate) real: u64,
    pub(crate) desc: u64,
    pub(crate) place: u32,
    pub(crate) seq: u32,
    pub(crate) client: u8,
    pub(crate) fun: u8,
    // How many words the arguments have, and how many the reply.
    pub(crate) args: u8,
    pub(crate) words: u8,
    pub(crate) form: Form,
    pub(crate) gave: GaveForm,
}

const _: () = prove!(size_of::<Head>() == 40);

impl Head {
    /// The head of a record that is kept whole.
    pub(crate) fn whole(place: u32) -> Head
        ensures form { result.form ≡ Form.Whole }
        ensures place { result.place ≡ place }
    {
        Head {
            points: 0,
            real: 0,
            desc: 0,
            place,
            seq: 0,
            client: 0,
            fun: 0,
            args: 0,
            words: 0,
            form: Form::Whole,
            gave: GaveForm::Good,
        }
    }

    /// The head of a call in brief, of so many words of arguments and of its reply.
    pub(crate) fn of(brief: &Brief, place: u32, args: u8, words: u8) -> Head
        ensures { result ≡ head_of brief.now place args words }
    {
        Head {
            points: brief.points,
            real: brief.real,
            desc: brief.desc,
            place,
            seq: brief.seq,
            client: brief.client,
            fun: brief.fun,
            args,
            words,
            form: form_of(&brief.why),
            gave: gave_form_of(&brief.gave),
        }
    }

    /// The record of this head, lent.
    pub(crate) fn lent<'a, W>(&self, words: &'a [u64], whole: &'a [W]) -> Lent<'a, W>
        ensures { record_in result ≡ record_at words.now whole.now self.now }
    {
        match self.form {
            Form::Whole => match whole.get(self.place as usize) {
                Some(record) => Lent::Whole(record),
                None => Lent::Brief(self.brief(words)),
            },
            _ => Lent::Brief(self.brief(words)),
        }
    }

    /// Of which kind the record of this head is. It reads none of the words.
    pub(crate) fn kind<W>(&self, whole: &[W]) -> RecordKind
        ensures { (words : List ℕ) → result ≡ kind_of (record_at words whole.now self.now) }
    {
        match self.form {
            Form::Walk(_) => RecordKind::Walk(gave_kind(&self.gave)),
            Form::Own => RecordKind::Own(gave_kind(&self.gave)),
            Form::Whole => match whole.get(self.place as usize) {
                Some(_) => RecordKind::Whole,
                None => RecordKind::Own(gave_kind(&self.gave)),
            },
        }
    }

    // The call in brief of this head, lent.
    fn brief<'a>(&self, words: &'a [u64]) -> LentBrief<'a>
        ensures brief { result.brief ≡ brief_at words.now self.now }
        ensures args { result.args.now ≡ args_in words.now self.now }
        ensures words { result.words.now ≡ words_in words.now self.now }
    {
        let place = self.place as usize;
        let args = usize::from(self.args);
        let count = usize::from(self.words);
        let extra = part(
            words,
            place + args + count,
            extra_count(&self.form, &self.gave),
        );
        LentBrief {
            brief: Brief {
                points: self.points,
                real: self.real,
                desc: self.desc,
                client: self.client,
                seq: self.seq,
                fun: self.fun,
                why: why_in(&self.form, extra),
                gave: gave_in(&self.gave, word_at(extra, walk_count(&self.form))),
            },
            args: part(words, place, args),
            words: part(words, place + args, count),
        }
    }
}

// How a call in brief is kept.
fn form_of(why: &Why) -> Form
    ensures { result ≡ form_of why.now }
{
    match why {
        Why::Own => Form::Own,
        Why::Walk { k, .. } => Form::Walk(*k),
    }
}

// What a call gave, without its descriptor.
fn gave_form_of(gave: &Gave) -> GaveForm
    ensures { result ≡ gave_form_of gave.now }
{
    match gave {
        Gave::Good { desc: 0 } => GaveForm::Good,
        Gave::Good { .. } => GaveForm::Named,
        Gave::Refused(code) => GaveForm::Refused(*code),
        Gave::Blocks => GaveForm::Blocks,
        Gave::Stopped => GaveForm::Stopped,
        Gave::NoMemory => GaveForm::NoMemory,
    }
}

// Of which kind is what a call gave.
fn gave_kind(gave: &GaveForm) -> GaveKind
    ensures { (desc : ℕ) → result ≡ gave_kind (gave_in gave.now desc) }
{
    match gave {
        GaveForm::Good | GaveForm::Named | GaveForm::Refused(_) => GaveKind::Replied,
        GaveForm::Blocks => GaveKind::Blocks,
        GaveForm::Stopped => GaveKind::Stopped,
        GaveForm::NoMemory => GaveKind::NoMemory,
    }
}

// How many words are the id and the client of a walk's call.
fn walk_count(form: &Form) -> usize
    ensures { result ≡ walk_count form.now }
{
    match form {
        Form::Walk(_) => 2,
        _ => 0,
    }
}

// How many words there are after those of arguments and reply.
fn extra_count(form: &Form, gave: &GaveForm) -> usize
    ensures { result ≡ extra_count form.now gave.now }
{
    match gave {
        GaveForm::Named => walk_count(form) + 1,
        _ => walk_count(form),
    }
}

// Why a call was made, with these words after those of arguments and reply.
fn why_in(form: &Form, extra: &[u64]) -> Why
    ensures { result ≡ why_in form.now extra.now }
{
    match form {
        Form::Walk(k) => Why::Walk {
            id: word_at(extra, 0),
            k: *k,
            turn: (word_at(extra, 1) % 256) as u8,
        },
        _ => Why::Own,
    }
}

// What a call gave, where this is its descriptor if it has one.
fn gave_in(gave: &GaveForm, desc: u64) -> Gave
    ensures { result ≡ gave_in gave.now desc }
{
    match gave {
        GaveForm::Good => Gave::Good { desc: 0 },
        GaveForm::Named => Gave::Good { desc },
        GaveForm::Refused(code) => Gave::Refused(*code),
        GaveForm::Blocks => Gave::Blocks,
        GaveForm::Stopped => Gave::Stopped,
        GaveForm::NoMemory => Gave::NoMemory,
    }
}

// The word at a place, 0 where there is none.
fn word_at(words: &[u64], at: usize) -> u64
    ensures { result ≡ slice_index words.now at }
{
    match words.get(at) {
        Some(word) => *word,
        None => 0,
    }
}

// So many words from a place on, or what there is of them.
fn part(words: &[u64], from: usize, count: usize) -> &[u64]
    ensures { result.now ≡ part words.now from count }
{
    if from > words.len() {
        return &[];
    }
    let rest = &words[from..];
    if count > rest.len() {
        return rest;
    }
    &rest[..count]
}
