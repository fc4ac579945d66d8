// What a script stands for.
ghost use Rattle.std.specs.Prelude.{◌≡◌, ◌≤◌, ◌<◌, ◌++◌, List, filter, length, map, true, IfOk, OnOk};
ghost use Rattle.std.specs.List.{flat_map, insert, list_all, range_with_len};
ghost use Rattle.sg_script_parse.specs.declared.tree.WrittenCall.{WrittenCall as OneWritten};
ghost use Rattle.sg_script.specs.Inside.Held.{is_client_number, is_held, is_held_arg, is_held_call};
ghost use Rattle.sg_script.specs.Numbers.{counts_as, is_text};
ghost use Rattle.sg_script.specs.Scripts.{calls_of_setup, clients_of, is_stop_of, most_members, multi_call_of, multi_script_of, placed, schedule_of, script_args, script_call_of, script_of, stops_of};
ghost use Rattle.sg_script.specs.Inside.Parts.{arg_of, stops_in, turns_of, with_client};

use crate::args::ArgList;
use crate::multi::{MultiCall, MultiScript, StopsList};
use crate::names::{declared_fun, found_from, is_stop_of};
use crate::numbers::{counts_as, unquoted};
use crate::script::{Arg, Script, ScriptCall, TurnList};
use sg_facts::{Interface, ListOf, NoMemory, PointList, Text, TextFault};
use sg_script_parse::{Part, Spelled, WrittenArg, WrittenCall};
use std::alloc::Global;

// ---- numbers

// The number of a client.
fn client_of(number: &Spelled) -> u8
    requires { is_client_number number.now ≡ true }
    ensures { result ≡ counts_as number.now.bytes }
{
    counts_as(number.slice) as u8
}

// ---- calls

// What an argument stands for.
fn arg_of(alloc: Global, arg: &WrittenArg) -> Result<Arg, NoMemory>
    requires { is_held_arg arg.now ≡ true }
    ensures { IfOk result (λ made. made ≡ arg_of arg.now) }
{
    match arg {
        WrittenArg::Number(number) => Ok(Arg::Number(counts_as(number.slice))),
        WrittenArg::Text(text) => Ok(Arg::Text(text_of(alloc, unquoted(text.slice))?)),
        WrittenArg::Back(number) => Ok(Arg::Back(counts_as(number.slice) as u32)),
    }
}

/// The text of these bytes, which are one.
pub fn text_of(alloc: Global, bytes: &[u8]) -> Result<Text, NoMemory>
    requires { is_text bytes.now ≡ true }
    ensures { IfOk result (λ text. text ≡ bytes.now) }
{
    match Text::new(alloc, bytes) {
        Ok(text) => Ok(text),
        Err(TextFault::NoMemory) => Err(NoMemory),
        Err(TextFault::BadByte { .. }) => unreachable!(),
        Err(TextFault::TooLong) => unreachable!(),
    }
}

// What arguments stand for.
fn args_of(alloc: Global, args: &[WrittenArg]) -> Result<ArgList, NoMemory>
    requires { list_all is_held_arg args.now ≡ true }
    ensures { IfOk result (λ made. made ≡ script_args args.now) }
{
    if let [arg] = args {
        return Ok(ArgList::of_one(arg_of(alloc, arg)?));
    }
    let mut made = Vec::with_capacity(alloc, args.len())?;
    'each: for arg in args {
        made.push(arg_of(alloc, arg)?)?;
    }
    Ok(ArgList::from_vec(made))
}

/// What makes the calls of a script of written ones: for one interface, or for several.
pub trait MakesCalls {
    type Call: Drop;

    /// What a written call stands for.
    ghost call_of: { Self → OneWritten → Self.Call };

    /// What a written call stands for.
    fn make(&self, alloc: Global, call: &WrittenCall) -> Result<Self::Call, NoMemory>
        requires { is_held_call call.now ≡ true }
        ensures { IfOk result (λ made. made ≡ call_of self.now call.now) };
}

impl MakesCalls for Interface {
    type Call = ScriptCall;

    ghost call_of = { script_call_of };

    fn make(&self, alloc: Global, call: &WrittenCall) -> Result<ScriptCall, NoMemory> {
        Ok(ScriptCall {
            fun: declared_fun(self, call.name.slice).unwrap_or(0),
            args: args_of(alloc, call.args.as_slice())?,
        })
    }
}

/// The interfaces that a script is for.
#[derive(Drop)]
pub struct Members<'a> {
    pub list: &'a [Interface],
    ghost few: { length list.now ≤ most_members },
}

impl<'b> MakesCalls for Members<'b> {
    type Call = MultiCall;

    ghost call_of = { λ members. multi_call_of members.list.now };

    fn make(&self, alloc: Global, call: &WrittenCall) -> Result<MultiCall, NoMemory> {
        let (member, fun) = found_from(1, self.list, call.name.slice).unwrap_or((0, 0));
        Ok(MultiCall {
            member,
            call: ScriptCall {
                fun,
                args: args_of(alloc, call.args.as_slice())?,
            },
        })
    }
}

// Puts what calls stand for after others.
fn add_calls<M: MakesCalls>(
    alloc: Global,
    maker: &M,
    calls: &[WrittenCall],
    made: &mut Vec<M::Call>,
) -> Result<(), NoMemory>
    requires { list_all is_held_call calls.now ≡ true }
    ensures { OnOk result (made.new.items ≡ made.old.items ++ map (M.call_of maker.now) calls.now) }
{
    made.reserve_exact(calls.len())?;
    'each: for call in calls {
        made.push(maker.make(alloc, call)?)?;
    }
    Ok(())
}

// The calls of setups.
fn setup_of<M: MakesCalls>(
    alloc: Global,
    maker: &M,
    parts: &[Part],
) -> Result<ListOf<M::Call>, NoMemory>
    requires { list_all is_held parts.now ≡ true }
    ensures { IfOk result (λ made. made ≡ map (M.call_of maker.now) (flat_map calls_of_setup parts.now)) }
{
    let mut made = Vec::new(alloc);
    'each: for part in parts {
        if let Part::Setup { calls, .. } = part {
            add_calls(alloc, maker, calls.as_slice(), &mut made)?;
        }
    }
    Ok(ListOf::from_vec(made))
}

// ---- clients

// The place of a client among others in ascending numbers.
fn place_for<C>(number: u8, clients: &[(u8, ListOf<C>)]) -> usize
    ensures most { result ≤ length clients.now }
    ensures placed { (calls : List C) → insert clients.now result (number, calls) ≡ placed number calls clients.now }
{
    match clients {
        [(before, _), rest @ ..] if *before < number => 1 + place_for(number, rest),
        _ => 0,
    }
}

// Puts a client with its calls into its place.
fn add_client<C: Drop>(
    number: u8,
    calls: ListOf<C>,
    clients: &mut Vec<(u8, ListOf<C>)>,
) -> Result<(), NoMemory>
    ensures { OnOk result (clients.new.items ≡ placed number calls clients.old.items) }
{
    let place = place_for(number, clients.as_slice());
    clients.insert(place, (number, calls))?;
    Ok(())
}

// Puts the client of a part into its place.
fn add_part<M: MakesCalls>(
    alloc: Global,
    maker: &M,
    part: &Part,
    clients: &mut Vec<(u8, ListOf<M::Call>)>,
) -> Result<(), NoMemory>
    requires { is_held part.now ≡ true }
    ensures { OnOk result (clients.new.items ≡ with_client (M.call_of maker.now) part.now clients.old.items) }
{
    if let Part::Client { number, calls, .. } = part {
        let mut made = Vec::new(alloc);
        add_calls(alloc, maker, calls.as_slice(), &mut made)?;
        add_client(client_of(number), ListOf::from_vec(made), clients)?;
    }
    Ok(())
}

// The clients of parts, in ascending numbers.
fn clients_of<M: MakesCalls>(
    alloc: Global,
    maker: &M,
    parts: &[Part],
) -> Result<ListOf<(u8, ListOf<M::Call>)>, NoMemory>
    requires { list_all is_held parts.now ≡ true }
    ensures { IfOk result (λ made. made ≡ clients_of (M.call_of maker.now) parts.now) }
{
    let mut made = Vec::new(alloc);
    'each: for part in parts {
        add_part(alloc, maker, part, &mut made)?;
    }
    Ok(ListOf::from_vec(made))
}

// ---- turns and stops

// Puts turns after others.
fn add_turns(numbers: &[Spelled], made: &mut Vec<u8>) -> Result<(), NoMemory>
    requires { list_all is_client_number numbers.now ≡ true }
    ensures { OnOk result (made.new.items ≡ made.old.items ++ map (λ n. counts_as n.bytes) numbers.now) }
{
    made.reserve_exact(numbers.len())?;
    'each: for number in numbers {
        made.push(client_of(number))?;
    }
    Ok(())
}

// The turns of schedules.
fn schedule_of(alloc: Global, parts: &[Part]) -> Result<TurnList, NoMemory>
    requires { list_all is_held parts.now ≡ true }
    ensures { IfOk result (λ made. made ≡ schedule_of parts.now) }
{
    let mut made = Vec::new(alloc);
    'each: for part in parts {
        if let Part::Schedule { numbers, .. } = part {
            add_turns(numbers.as_slice(), &mut made)?;
        }
    }
    Ok(TurnList::from_vec(made))
}

// Puts the numbers of stops after others.
fn add_stops(numbers: &[Spelled], made: &mut Vec<u64>) -> Result<(), NoMemory>
    ensures { OnOk result (made.new.items ≡ made.old.items ++ map (λ n. counts_as n.bytes) numbers.now) }
{
    made.reserve_exact(numbers.len())?;
    'each: for number in numbers {
        made.push(counts_as(number.slice))?;
    }
    Ok(())
}

// Puts the stops that a part gives after others.
fn add_part_stops(part: &Part, made: &mut Vec<u64>) -> Result<(), NoMemory>
    ensures { OnOk result (made.new.items ≡ made.old.items ++ map (λ n. counts_as n.bytes) (stops_in part.now)) }
{
    if let Part::Stop { numbers, .. } = part {
        add_stops(numbers.as_slice(), made)?;
    }
    Ok(())
}

// The numbers of stops.
fn stops_of(alloc: Global, parts: &[Part]) -> Result<PointList, NoMemory>
    ensures { IfOk result (λ made. made ≡ stops_of parts.now) }
{
    let mut made = Vec::new(alloc);
    'each: for part in parts {
        add_part_stops(part, &mut made)?;
    }
    Ok(PointList::from_vec(made))
}

// The numbers of the stops for a member, from 0.
fn stops_for(
    alloc: Global,
    members: &[Interface],
    member: usize,
    parts: &[Part],
) -> Result<PointList, NoMemory>
    requires { length members.now ≤ most_members }
    ensures { IfOk result (λ made. made ≡ stops_of (filter (is_stop_of members.now member) parts.now)) }
{
    let mut made = Vec::new(alloc);
    'each: for part in parts {
        if is_stop_of(members, member, part) {
            add_part_stops(part, &mut made)?;
        }
    }
    Ok(PointList::from_vec(made))
}

// The stops of each member.
fn all_stops(alloc: Global, members: &[Interface], parts: &[Part]) -> Result<StopsList, NoMemory>
    requires { length members.now ≤ most_members }
    ensures { IfOk result (λ made. made ≡ map (λ m. stops_of (filter (is_stop_of members.now m) parts.now)) (range_with_len 0 (length members.now))) }
{
    let mut made = Vec::with_capacity(alloc, members.len())?;
    'each: for member in 0..members.len() {
        made.push(stops_for(alloc, members, member, parts)?)?;
    }
    Ok(StopsList::from_vec(made))
}

// ---- the script

/// The script of parts for an interface. Their numbers and texts have room in it, as those of flawless parts have.
pub fn script_of(alloc: Global, iface: &Interface, parts: &[Part]) -> Result<Script, NoMemory>
    requires { list_all is_held parts.now ≡ true }
    ensures { IfOk result (λ script. script ≡ script_of iface.now parts.now) }
{
    Ok(Script {
        setup: setup_of(alloc, iface, parts)?,
        clients: clients_of(alloc, iface, parts)?,
        schedule: schedule_of(alloc, parts)?,
        stops: stops_of(alloc, parts)?,
    })
}

/// The script of parts for several interfaces, likewise.
pub fn multi_script_of(
    alloc: Global,
    members: &[Interface],
    parts: &[Part],
) -> Result<MultiScript, NoMemory>
    requires few { length members.now ≤ most_members }
    requires held { list_all is_held parts.now ≡ true }
    ensures { IfOk result (λ script. script ≡ multi_script_of members.now parts.now) }
{
    let maker = Members { list: members };
    Ok(MultiScript {
        setup: setup_of(alloc, &maker, parts)?,
        clients: clients_of(alloc, &maker, parts)?,
        schedule: schedule_of(alloc, parts)?,
        stops: all_stops(alloc, members, parts)?,
    })
}
