// The line of a verdict.
ghost use Rattle.std.specs.Prelude.{◌≡◌, ◌++◌, ◌-◌, [], IfOk, OnOk, codes, length, slice_get};
ghost use Rattle.std.specs.Fmt.{decimal};
ghost use Rattle.sg_facts.specs.Facts.{fun_at, fun_of_shape};
ghost use Rattle.sg_facts.specs.Words.{line_end};
ghost use Rattle.sg_verify.specs.Lines.{verdict_line_of};
ghost use Rattle.sg_verify.specs.Inside.Answered.{answered_text, fun_of_entry};

use crate::Verdict;
use sg_facts::{Bytes, FunShape, Interface, LentReply, NoMemory, Reply};
use sg_report::{History, push_answer, push_number};
use std::alloc::Global;

/// The line of what is said of a history: `legal` and the number of its entries, or `illegal at entry`, the place of the first entry that
/// is wrong, and the number that is its client's next, or else what its call is answered there, as a run's replies are printed. An
/// answer to an entry that the history doesn't have is printed as that of a function without a name. The only error is want of memory.
pub fn verdict_line(
    alloc: Global,
    iface: &Interface,
    history: &History,
    verdict: &Verdict,
) -> Result<Bytes, NoMemory>
    ensures { IfOk result (λ line. line ≡ verdict_line_of iface.now.facts history.now.items verdict.now) }
{
    let mut out = Bytes::new(alloc);
    match verdict {
        Verdict::Legal => {
            out.extend_from_slice(b"legal ")?;
            push_number(&mut out, history.len() as u64)?;
        }
        Verdict::BadSeq { at, next } => {
            push_place(&mut out, *at)?;
            out.extend_from_slice(b"seq ")?;
            push_number(&mut out, u64::from(*next))?;
        }
        Verdict::BadReply { at, answer } => {
            push_place(&mut out, *at)?;
            let fun = iface.fun(fun_of(history, *at));
            push_answered(&mut out, &fun, answer)?;
        }
    }
    out.extend_from_slice(b"\n")?;
    Ok(out)
}

// The place of the first wrong entry.
fn push_place(out: &mut Bytes, at: u64) -> Result<(), NoMemory>
    ensures { OnOk result (out.new ≡ out.old ++ codes "illegal at entry " ++ decimal at ++ codes ": ") }
{
    out.extend_from_slice(b"illegal at entry ")?;
    push_number(out, at)?;
    out.extend_from_slice(b": ")
}

// The number of the function of the entry at a place, counted from 1; 0 where there is none.
fn fun_of(history: &History, at: u64) -> u8
    ensures { result ≡ fun_of_entry (slice_get history.now.items (at - 1)) }
{
    match history.get(at.saturating_sub(1) as usize) {
        Some(entry) => entry.call.fun,
        None => 0,
    }
}

// A reply to a function, or that the caller has to wait.
fn push_answered(out: &mut Bytes, fun: &FunShape, answer: &Option<Reply>) -> Result<(), NoMemory>
    ensures { OnOk result (out.new ≡ out.old ++ answered_text (fun_of_shape fun.now) answer.now) }
{
    match answer {
        Some(reply) => push_answer(out, fun, &LentReply::of(reply)),
        None => out.extend_from_slice(b"blocked"),
    }
}
