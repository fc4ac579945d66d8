// What is first wrong with the parts of a script for one interface or for several, its members.
ghost use Rattle.std.specs.Prelude.{◌≡◌, ◌<◌, ◌+◌, ◌^◌, ◌&&◌, ◌≤◌, [], None, List, length, nat_le, nat_lt, MatchOption};
ghost use Rattle.std.specs.List.{flat_map};
ghost use Rattle.sg_script_parse.specs.declared.tree.Part.{Part as OnePart};
ghost use Rattle.sg_script.specs.Inside.Firsts.{first_after};
ghost use Rattle.sg_script.specs.Inside.Fronts.{IsFront};
ghost use Rattle.sg_script.specs.Flaws.{IsFirstFlaw, written_arg_fits, written_args_fit, call_flaws, calls_before, calls_flaws, client_flaws, flaws_after, flaws_of, number_flaws, part_flaws, stops_flaws};
ghost use Rattle.sg_script.specs.Inside.Parts.{arg_flaws, fun_flaws, inner_flaws, part_place, service_flaws};
ghost use Rattle.sg_script.specs.Scripts.{calls_of_setup, function_named, most_members};
ghost use Rattle.sg_script.specs.Numbers.{counts_as};

use crate::fault::{ScriptFault, ScriptKind};
use crate::first::First;
use crate::front::SeenParts;
use crate::names::{function_named, stop_member};
use crate::numbers::{counts_as, is_above, is_known_client, is_text, unquoted};
use crate::script::MOST_CALLS;
use sg_facts::{Interface, Kind};
use sg_script_parse::{Part, Spelled, WrittenArg, WrittenCall};

// The number of the first call that is one too many.
const TOO_MANY_CALLS: u128 = MOST_CALLS as u128 + 1;

// The greatest number of stops of a script, and the number of the first that is one too many.
const MOST_STOPS: usize = 64;

const TOO_MANY_STOPS: usize = MOST_STOPS + 1;

// ---- numbers and texts

// Notes a number above the greatest of 64 bits.
fn judge_number(first: &mut First, number: &Spelled)
    ensures { first.new ≡ first_after first.old (number_flaws number.now) }
{
    first.note_if(is_above(number.slice), ScriptKind::Limit, number.at);
}

// Notes what is wrong with the number of a client.
fn judge_client(first: &mut First, number: &Spelled)
    ensures { first.new ≡ first_after first.old (client_flaws number.now) }
{
    let known = is_known_client(counts_as(number.slice));
    first.note_if(!known, ScriptKind::BadClient, number.at);
    judge_number(first, number);
}

// Notes what is wrong with the numbers of clients.
fn judge_clients(first: &mut First, numbers: &[Spelled])
    ensures { first.new ≡ first_after first.old (flat_map client_flaws numbers.now) }
{
    'each: for number in numbers {
        judge_client(first, number);
    }
}

// Notes what is wrong with an argument by itself.
fn judge_arg(first: &mut First, arg: &WrittenArg)
    ensures { first.new ≡ first_after first.old (arg_flaws arg.now) }
{
    match arg {
        WrittenArg::Number(number) | WrittenArg::Back(number) => judge_number(first, number),
        WrittenArg::Text(text) => {
            first.note_if(!is_text(unquoted(text.slice)), ScriptKind::Limit, text.at);
        }
    }
}

// Notes what is wrong with arguments by themselves.
fn judge_args(first: &mut First, args: &[WrittenArg])
    ensures { first.new ≡ first_after first.old (flat_map arg_flaws args.now) }
{
    'each: for arg in args {
        judge_arg(first, arg);
    }
}

// ---- calls

// Whether an argument may stand for a parameter, in the call that is its client's call of this number.
fn written_arg_fits(own: u128, kind: Kind, arg: &WrittenArg) -> bool
    ensures { result ≡ written_arg_fits own kind arg.now }
{
    match arg {
        WrittenArg::Text(_) => kind == Kind::Text,
        WrittenArg::Number(_) => kind != Kind::Text,
        WrittenArg::Back(number) => kind != Kind::Text && is_earlier(own, number),
    }
}

// Whether a `$` number is that of an earlier call.
fn is_earlier(own: u128, number: &Spelled) -> bool
    ensures { result ≡ (nat_le 1 (counts_as number.now.bytes) && nat_lt (counts_as number.now.bytes) own) }
{
    let back = counts_as(number.slice);
    back >= 1 && u128::from(back) < own
}

// Whether arguments may stand for parameters, one for each.
fn written_args_fit(own: u128, kinds: &[Kind], args: &[WrittenArg]) -> bool
    ensures { result ≡ written_args_fit own kinds.now args.now }
{
    match kinds {
        [] => args.is_empty(),
        [kind, kinds @ ..] => match args {
            [] => false,
            [arg, args @ ..] => written_arg_fits(own, *kind, arg)
                && written_args_fit(own, kinds, args),
        },
    }
}

// Notes what is wrong with a call by its function.
fn judge_fun(
    first: &mut First,
    members: &[Interface],
    in_setup: bool,
    own: u128,
    call: &WrittenCall,
)
    ensures { first.new ≡ first_after first.old (fun_flaws in_setup own call.now (function_named members.now call.now.name.bytes)) }
{
    let at = call.name.at;
    match function_named(members, call.name.slice) {
        None => first.note_if(true, ScriptKind::UnknownFunction, at),
        Some(fun) => {
            let fits = written_args_fit(own, fun.kinds, call.args.as_slice());
            first.note_if(!fits, ScriptKind::BadArgs, at);
            first.note_if(in_setup && fun.may_block(), ScriptKind::Blocking, at);
        }
    }
}

// Notes what is wrong with a call, which has a number among all calls and one among its client's.
fn judge_call(
    first: &mut First,
    members: &[Interface],
    in_setup: bool,
    nth: u128,
    own: u128,
    call: &WrittenCall,
)
    ensures { first.new ≡ first_after first.old (call_flaws members.now in_setup nth own call.now) }
{
    judge_fun(first, members, in_setup, own, call);
    first.note_if(nth == TOO_MANY_CALLS, ScriptKind::Limit, call.name.at);
    judge_args(first, call.args.as_slice());
}

// Notes what is wrong with calls that follow one another, the first of which has these numbers.
fn judge_calls(
    first: &mut First,
    members: &[Interface],
    in_setup: bool,
    mut nth: u128,
    mut own: u128,
    calls: &[WrittenCall],
)
    requires nth { nth + 2 ^ 64 < 2 ^ 128 }
    requires own { own + 2 ^ 64 < 2 ^ 128 }
    ensures { first.new ≡ first_after first.old (calls_flaws members.now in_setup nth own calls.now) }
{
    'each: for call in calls {
        judge_call(first, members, in_setup, nth, own, call);
        nth += 1;
        own += 1;
    }
}

// ---- stops

// Notes the name of a service of which no member is.
fn judge_service(first: &mut First, members: &[Interface], service: &Option<Spelled>)
    requires few { length members.now ≤ most_members }
    ensures { first.new ≡ first_after first.old (service_flaws members.now service.now) }
{
    if let Some(name) = service {
        let unknown = stop_member(members, service).is_none();
        first.note_if(unknown, ScriptKind::UnknownService, name.at);
    }
}

// Notes what is wrong with stops.
fn judge_stops(first: &mut First, stops: &[Spelled])
    ensures { first.new ≡ first_after first.old (stops_flaws 1 0 stops.now) }
{
    let mut before = 0;
    'each: for (place, stop) in stops.iter().enumerate() {
        let number = counts_as(stop.slice);
        first.note_if(number <= before, ScriptKind::NotAscending, stop.at);
        first.note_if(place + 1 == TOO_MANY_STOPS, ScriptKind::Limit, stop.at);
        judge_number(first, stop);
        before = number;
    }
}

// ---- parts

// The place of the first word of a part.
fn part_place(part: &Part) -> usize
    ensures { result ≡ part_place part.now }
{
    match part {
        Part::Setup { at, .. }
        | Part::Client { at, .. }
        | Part::Schedule { at, .. }
        | Part::Stop { at, .. } => *at,
    }
}

// How many calls of a client come before the calls of its own part, in a script whose setup has so many.
fn calls_before(setup: u128, client: u64) -> u128
    ensures { result ≡ calls_before setup client }
{
    if client == 1 { setup } else { 0 }
}

// Notes what is wrong within a part, after so many calls, in a script whose setup has so many.
fn judge_inside(first: &mut First, members: &[Interface], setup: u128, before: u128, part: &Part)
    requires few { length members.now ≤ most_members }
    requires setup { setup + 2 ^ 65 < 2 ^ 128 }
    requires before { before + 2 ^ 65 < 2 ^ 128 }
    ensures { first.new ≡ first_after first.old (inner_flaws members.now setup before part.now) }
{
    match part {
        Part::Setup { calls, .. } => {
            judge_calls(first, members, true, before + 1, 1, calls.as_slice());
        }
        Part::Client { number, calls, .. } => {
            judge_client(first, number);
            let own = calls_before(setup, counts_as(number.slice)) + 1;
            judge_calls(first, members, false, before + 1, own, calls.as_slice());
        }
        Part::Schedule { numbers, .. } => judge_clients(first, numbers.as_slice()),
        Part::Stop {
            service,
            numbers,
            ..
        } => {
            judge_service(first, members, service);
            judge_stops(first, numbers.as_slice());
        }
    }
}

// Notes what is wrong with a part after others.
fn judge_part(first: &mut First, members: &[Interface], setup: u128, front: &SeenParts, part: &Part)
    requires few { length members.now ≤ most_members }
    requires setup { setup + 2 ^ 65 < 2 ^ 128 }
    requires before { front.now.calls + 2 ^ 65 < 2 ^ 128 }
    ensures { (parts : List OnePart) → IsFront members.now front.now parts → first.new ≡ first_after first.old (part_flaws members.now setup parts part.now) }
{
    first.note_if(
        front.comes_again(members, part),
        ScriptKind::Twice,
        part_place(part),
    );
    judge_inside(first, members, setup, front.calls, part);
}

// How many calls the setups of parts have.
fn setup_calls(parts: &[Part]) -> u128
    ensures calls { result ≡ length (flat_map calls_of_setup parts.now) }
    ensures most { result + 2 ^ 65 < 2 ^ 128 }
{
    let mut count = 0;
    'each: for part in parts {
        if let Part::Setup { calls, .. } = part {
            count += calls.len() as u128;
        }
    }
    count
}

// The first flaw of parts.
fn first_in(parts: &[Part], members: &[Interface]) -> First
    requires few { length members.now ≤ most_members }
    ensures { result ≡ first_after None (flaws_of members.now parts.now) }
{
    let setup = setup_calls(parts);
    let mut first = First::new();
    let mut front = SeenParts::new();
    'each: for part in parts {
        judge_part(&mut first, members, setup, &front, part);
        front.add(members, part);
    }
    first
}

/// What is first wrong with the parts of a script; None exactly where nothing is.
pub fn judge(parts: &[Part], members: &[Interface]) -> Option<ScriptFault>
    requires few { length members.now ≤ most_members }
    ensures { MatchOption result (flaws_of members.now parts.now ≡ []) (IsFirstFlaw (flaws_of members.now parts.now)) }
{
    first_in(parts, members).fault()
}
