//! From a line to what it asks for.
ghost use Rattle.std.specs.Prelude.{◌≡◌, map};
ghost use Rattle.std.specs.Option.{option_map};
ghost use Rattle.script.specs.Grammar.{LineIs};
ghost use Rattle.script.specs.Requests.{bytes_of, command_of};
ghost use Rattle.script.specs.inner.Reading.{arguments_at, call_at, command_from, command_of_more, command_of_three, command_of_two, next_at, program_at};

use crate::digits::Hex;
use crate::fields::fields_in;
use crate::numbers::number;
use crate::request::Request;
use crate::what::what_call;
use machines::Arch;

/// The most bytes of a line, its line feed not counted.
pub const MAX_LINE: usize = 70000;

// What stands before a program.
const MARK: &str = "prog";

// An argument and the fields behind it: 0 at the end, and where the program begins.
fn next<'b, 'a>(fields: &'b [&'a str]) -> Option<(u64, &'b [&'a str])>
    ensures { option_map (λ p. (p.0, map (λ f. f.now) p.1.now)) result ≡ next_at (map (λ f. f.now) fields.now) }
{
    match fields {
        [] => Some((0, fields)),
        [field, rest @ ..] => {
            if *field == MARK {
                return Some((0, fields));
            }
            let value = number(field)?;
            Some((value, rest))
        }
    }
}

// The arguments of a call, and the fields behind them.
#[tactic(auto, unfolding(crate::specs::inner::Reading::arguments_at))]
fn arguments<'b, 'a>(fields: &'b [&'a str]) -> Option<([u64; 6], &'b [&'a str])>
    ensures { option_map (λ p. (p.0, map (λ f. f.now) p.1.now)) result ≡ arguments_at (map (λ f. f.now) fields.now) }
{
    let (a, rest) = next(fields)?;
    let (b, rest) = next(rest)?;
    let (c, rest) = next(rest)?;
    let (d, rest) = next(rest)?;
    let (e, rest) = next(rest)?;
    let (f, rest) = next(rest)?;
    Some(([a, b, c, d, e, f], rest))
}

// The program beside a call, if there is one.
fn program<'a>(fields: &[&'a str]) -> Option<Option<Hex<'a>>>
    ensures { option_map (λ p. option_map bytes_of p) result ≡ program_at (map (λ f. f.now) fields.now) }
{
    match fields {
        [] => Some(None),
        [_] => None,
        [mark, digits] => {
            if *mark == MARK {
                let bytes = Hex::read(digits)?;
                return Some(Some(bytes));
            }
            None
        }
        [_, _, _, ..] => None,
    }
}

// A call, by what stands behind the container's id.
#[tactic(auto, unfolding(crate::specs::inner::Reading::call_at))]
fn call<'a>(
    native: Arch,
    id: &'a str,
    task: &str,
    what: &str,
    rest: &[&'a str],
) -> Option<Request<'a>>
    ensures { option_map command_of result ≡ call_at native id.now task.now what.now (map (λ f. f.now) rest.now) }
{
    let task = number(task)?;
    let (arch, nr) = what_call(native, what)?;
    let (args, rest) = arguments(rest)?;
    let program = program(rest)?;
    Some(Request::Call {
        id,
        task,
        arch,
        nr,
        args,
        program,
    })
}

// What two fields ask for.
#[tactic(auto, unfolding(crate::specs::inner::Reading::command_of_two))]
fn of_two<'a>(verb: &str, id: &'a str) -> Option<Request<'a>>
    ensures { option_map command_of result ≡ command_of_two verb.now id.now }
{
    if verb == "start" {
        return Some(Request::Start { id });
    }
    if verb == "delete" {
        return Some(Request::Delete { id });
    }
    if verb == "state" {
        return Some(Request::State { id });
    }
    None
}

// What three fields ask for.
#[tactic(auto, unfolding(crate::specs::inner::Reading::command_of_three))]
fn of_three<'a>(verb: &str, id: &'a str, last: &'a str) -> Option<Request<'a>>
    ensures { option_map command_of result ≡ command_of_three verb.now id.now last.now }
{
    if verb == "create" {
        return Some(Request::Create { id, bundle: last });
    }
    if verb == "kill" {
        let signal = number(last)?;
        return Some(Request::Kill { id, signal });
    }
    None
}

// What more fields ask for.
#[tactic(auto, unfolding(crate::specs::inner::Reading::command_of_more))]
fn of_more<'a>(
    native: Arch,
    verb: &str,
    id: &'a str,
    task: &str,
    what: &str,
    rest: &[&'a str],
) -> Option<Request<'a>>
    ensures { option_map command_of result ≡ command_of_more native verb.now id.now task.now what.now (map (λ f. f.now) rest.now) }
{
    if verb == "call" {
        return call(native, id, task, what, rest);
    }
    None
}

// What fields ask for.
fn request<'a>(native: Arch, fields: &[&'a str]) -> Option<Request<'a>>
    ensures { option_map command_of result ≡ command_from native (map (λ f. f.now) fields.now) }
{
    match fields {
        [] => None,
        [_] => None,
        [verb, id] => of_two(verb, id),
        [verb, id, last] => of_three(verb, id, last),
        [verb, id, task, what, rest @ ..] => of_more(native, verb, id, task, what, rest),
    }
}

/// What a line asks for, by its bytes without the line feed, or `None` where it is no command.
pub fn read_line(native: Arch, line: &[u8]) -> Option<Request<'_>>
    ensures { LineIs native line.now (option_map command_of result) }
{
    if line.len() > MAX_LINE {
        return None;
    }
    let Ok(text) = str::from_utf8(line) else {
        return None;
    };
    let Some(fields) = fields_in(text) else {
        return None;
    };
    request(native, &fields)
}
