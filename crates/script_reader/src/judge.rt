//! What a line's form means for a shape, or why it means nothing.

ghost use Rattle.std.specs.Prelude.{◌≡◌, ◌<◌, ◌≤◌, true, Some, is_some, IfOk, IfSome, IfNone};
ghost use Rattle.std.specs.List.{list_all};
ghost use Rattle.wave_base.specs.Names.{is_digits};
ghost use Rattle.wave_base.specs.Shapes.{IsShape};
ghost use Rattle.wave_text.specs.Numbers.{number_of};
ghost use Rattle.path_text.specs.Paths.{path_of};
ghost use Rattle.path_text.specs.Steps.{is_step};
ghost use Rattle.script_reader.specs.Forms.{is_literal, is_form};
ghost use Rattle.script_reader.specs.Judged.{value_of, values_of, call_of, requested_call, move_to, judged_hosts, judged_form};
ghost use Rattle.script_reader.specs.Scripts.{IsWellFormed, judgment};
ghost use Rattle.script_reader.specs.inner.Gives.{Gives};

use crate::error::Fault;
use crate::form::{Form, Literal};
use crate::named::NamedShape;
use crate::progress::Progress;
use crate::refusal::Refusal;
use crate::said::Said;
use crate::taken::Taken;
use path_text::Written;
use std::alloc::Global;
use wave_base::{
    Call, EVENT_LINES, HOSTS, Host, Kind, LITERAL_BYTES, Line, OutOfMemory, Seq, Txt, Value,
};
use wave_text::whole_of;

// ---- arguments

// Whether an argument fits a parameter of this kind.
fn fits(kind: Kind, literal: &Literal<'_>) -> bool
    requires { is_literal literal.now ≡ true }
    ensures { result ≡ is_some (value_of kind literal.now) }
{
    match (kind, literal) {
        (Kind::Int, Literal::Number(digits)) => whole_of(digits.as_slice()).is_some(),
        (Kind::Bool, Literal::Truth(_)) => true,
        (Kind::Text, Literal::Text(text)) => text.bytes().len() <= LITERAL_BYTES,
        _ => false,
    }
}

// Whether arguments fit as many parameters. Nothing is copied for that.
fn all_fit(params: &[Kind], args: &[Literal<'_>]) -> bool
    requires { list_all is_literal args.now ≡ true }
    ensures { result ≡ is_some (values_of params.now args.now) }
{
    let mut kinds = params;
    for literal in args {
        let [kind, others @ ..] = kinds else {
            return true;
        };
        if !fits(*kind, literal) {
            return false;
        }
        kinds = others;
    }
    true
}

// The value of an argument that fits a parameter of this kind.
fn value_of(alloc: Global, kind: Kind, literal: &Literal<'_>) -> Result<Value, OutOfMemory>
    requires form { is_literal literal.now ≡ true }
    requires fits { is_some (value_of kind literal.now) ≡ true }
    ensures { IfOk result (λ v. value_of kind literal.now ≡ Some v) }
{
    match (kind, literal) {
        (Kind::Int, Literal::Number(digits)) => {
            Ok(Value::Int(whole_of(digits.as_slice()).unwrap()))
        }
        (Kind::Bool, Literal::Truth(b)) => Ok(Value::Bool(*b)),
        (Kind::Text, Literal::Text(text)) => {
            Ok(Value::Str(Txt::from_bytes(alloc, text.bytes())?))
        }
        _ => unreachable!(),
    }
}

// The values of arguments that fit as many parameters.
fn values_of(
    alloc: Global,
    params: &[Kind],
    args: &[Literal<'_>],
) -> Result<Seq<Value>, OutOfMemory>
    requires form { list_all is_literal args.now ≡ true }
    requires fit { is_some (values_of params.now args.now) ≡ true }
    ensures { IfOk result (λ vs. values_of params.now args.now ≡ Some vs) }
{
    let mut values = Seq::new(alloc);
    let mut kinds = params;
    for literal in args {
        let [kind, others @ ..] = kinds else {
            return Ok(values);
        };
        values.add(value_of(alloc, *kind, literal)?)?;
        kinds = others;
    }
    Ok(values)
}

// The call of an event with these parameters.
fn call_of(
    alloc: Global,
    event: u16,
    params: &[Kind],
    args: &[Literal<'_>],
) -> Result<Line, Refusal>
    requires { list_all is_literal args.now ≡ true }
    ensures { Gives result (call_of event params.now args.now) }
{
    if args.len() != params.len() {
        return Err(Refusal::Fault(Fault::ArgCount));
    }
    if !all_fit(params, args) {
        return Err(Refusal::Fault(Fault::ArgType));
    }
    let args = values_of(alloc, params, args)?;
    Ok(Line::Request(Call {
        event,
        args,
        generation: 0,
    }))
}

// The call of the event of that name.
fn requested_call(
    alloc: Global,
    shape: &NamedShape<'_>,
    name: &[u8],
    args: &[Literal<'_>],
) -> Result<Line, Refusal>
    requires shape { IsShape shape.now }
    requires form { list_all is_literal args.now ≡ true }
    ensures { Gives result (requested_call shape.now name.now args.now) }
{
    match shape.event(name) {
        Some(event) => call_of(alloc, event, shape.params(event), args),
        None => Err(Refusal::Fault(Fault::UnknownEvent)),
    }
}

// ---- hosts and moves

/// The number that digits stand for, where it is at most this one.
pub(crate) fn number_within(digits: &[u8], most: u8) -> Option<u8>
    requires { is_digits digits.now ≡ true }
    ensures some { IfSome result (λ n. n ≡ number_of digits.now) }
    ensures within { IfSome result (λ n. n ≤ most) }
    ensures none { IfNone result (most < number_of digits.now) }
{
    match whole_of(digits) {
        Some(n) if 0 <= n && n <= i64::from(most) => Some(n as u8),
        _ => None,
    }
}

// A move to a host below their count.
fn move_to(
    shape: &NamedShape<'_>,
    hosts: u8,
    steps: &[Written],
    digits: &[u8],
) -> Result<Line, Fault>
    requires shape { IsShape shape.now }
    requires steps { list_all is_step steps.now ≡ true }
    requires digits { is_digits digits.now ≡ true }
    ensures { result ≡ move_to hosts (path_of shape.now steps.now) (number_of digits.now) }
{
    let Some(path) = shape.path(steps) else {
        return Err(Fault::BadPath);
    };
    match number_within(digits, hosts) {
        Some(to) if to < hosts => Ok(Line::Move(path, Host(to))),
        _ => Err(Fault::HostRange),
    }
}

fn judged_hosts(begun: bool, digits: &[u8]) -> Result<Taken, Fault>
    requires { is_digits digits.now ≡ true }
    ensures { result ≡ judged_hosts begun (number_of digits.now) }
{
    if begun {
        return Err(Fault::HostsLate);
    }
    match number_within(digits, HOSTS) {
        Some(n) if 1 <= n => Ok(Taken::Hosts(n)),
        _ => Err(Fault::HostRange),
    }
}

// ---- lines

// What a line of this form is, where so many hosts and event lines stand before.
fn judged_form(
    alloc: Global,
    shape: &NamedShape<'_>,
    before: &Progress,
    form: &Form<'_>,
) -> Result<Taken, Refusal>
    requires shape { IsShape shape.now }
    requires form { is_form form.now ≡ true }
    ensures { Gives result (judged_form shape.now before.now.hosts before.now.begun before.now.events form.now) }
{
    match form {
        Form::Hosts(digits) => Ok(judged_hosts(before.begun, digits.as_slice())?),
        Form::Settle => Ok(Taken::Settle),
        _ if before.events >= EVENT_LINES => Err(Refusal::Fault(Fault::TooMany)),
        Form::Request(name, args) => {
            let line = requested_call(alloc, shape, name.as_slice(), args.as_slice())?;
            Ok(Taken::Event(line))
        }
        Form::Move(steps, to) => {
            let line = move_to(shape, before.hosts, steps.as_slice(), to.as_slice())?;
            Ok(Taken::Event(line))
        }
        Form::Snapshot => Ok(Taken::Event(Line::Snapshot)),
    }
}

/// What a line is, after the lines before: taken, or refused.
pub(crate) fn judgment(
    alloc: Global,
    shape: &NamedShape<'_>,
    before: &Progress,
    said: &Said<'_>,
) -> Result<Taken, Refusal>
    requires shape { IsShape shape.now }
    requires form { IsWellFormed said.now }
    ensures { Gives result (judgment shape.now before.now.hosts before.now.begun before.now.events said.now) }
{
    match said {
        Said::Nothing => Ok(Taken::Skipped),
        Said::Unknown => Err(Refusal::Fault(Fault::UnknownCommand)),
        Said::Says(form) => judged_form(alloc, shape, before, form),
    }
}
