//! What a command comes to before anything is run: the answer that is due, or a script to run.

ghost use Rattle.std.specs.Prelude.{◌≡◌, ◌≤◌, ℕ, List, length, All, IfOk, Some};
ghost use Rattle.command_words.specs.Inputs.{input_bytes};
ghost use Rattle.command_words.specs.declared.command.Command.{Command};
ghost use Rattle.command_words.specs.declared.command.Command.TheVariants as command;
ghost use Rattle.input_parts.specs.Parts.{service_of};
ghost use Rattle.mace_ast.specs.Decls.{service_tree};
ghost use Rattle.mace_printer.specs.Written.{IsParsed};
ghost use Rattle.service_code.specs.Listing.{CanList, program_text};
ghost use Rattle.wave_base.specs.declared.limits.TheConstants.{LONG_INPUT_BYTES};
ghost use Rattle.due_parts.specs.Accepted.{IsOnlyDueOf};
ghost use Rattle.due_parts.specs.Answers.{Only, text_answer};
ghost use Rattle.due_parts.specs.Services.{IsDueService};
ghost use Rattle.due_parts.specs.declared.answer.Answer.{Answer};
ghost use Rattle.due_stages.specs.Elastic.{IsDueElastic};
ghost use Rattle.due_answer.specs.Due.{IsListedCode, IsPrinted, IsToldFor, approval};
ghost use Rattle.due_answer.specs.Prepared.{IsFound, IsPrepared, prepared_answer};
ghost use Rattle.due_answer.specs.Tasks.{staged_of};
ghost use Rattle.due_answer.specs.inner.Ready.{AreReady};

use crate::prepared::Prepared;
use crate::task::{Engine, Task};
use command_words::{Command, Crew, Places};
use due_parts::{
    Answer, Refusal, Report, Telling, accept, service_of_text, text_answer, too_large,
};
use due_points::accept_resumed;
use due_replay::judge_replay;
use due_stages::accept_elastic;
use input_parts::parts_of;
use mace_ast::Service;
use mace_printer::print;
use service_code::{Program, code_listing};
use std::alloc::Global;
use wave_base::{INPUT_BYTES, OutOfMemory, Seq};
use wave_gen::generate;

/// What a command comes to, for an input that is not too large; a command that reads none does not look at it.
pub fn prepare(alloc: Global, command: Command, input: &[u8]) -> Result<Prepared, OutOfMemory>
    requires { length input.now ≤ input_bytes command }
    ensures { IfOk result (IsPrepared command input.now) }
{
    match find(alloc, command, input) {
        Ok(prepared) => Ok(prepared),
        Err(Refusal::Due(answer)) => Ok(Prepared::Given(answer)),
        Err(Refusal::OutOfMemory(refused)) => Err(refused),
    }
}

// The same, or a refusal.
fn find(alloc: Global, command: Command, input: &[u8]) -> Result<Prepared, Refusal>
    requires { length input.now ≤ input_bytes command }
    ensures { IsFound command input.now result }
{
    match command {
        Command::Run(places, crew) => prepared_stages(alloc, places, Engine::of_crew(crew), input),
        Command::Seq(places) => prepared_stages(alloc, places, Engine::Evaluator, input),
        Command::Trace(places, crew) => {
            let telling = Telling::Traces(places, crew);
            ready(alloc, telling, Engine::of_crew(crew), input)
        }
        Command::Save(crew) => {
            let telling = Telling::Reports(Report::Point);
            ready(alloc, telling, Engine::Workers(crew.workers), input)
        }
        Command::Resume(places, crew) => prepared_resumption(alloc, places, crew, input),
        Command::Replay(show, crew) => prepared_answer(judge_replay(alloc, show, crew, input)),
        Command::Check => prepared_answer(check_answer(alloc, input)),
        Command::Print => prepared_answer(print_answer(alloc, input)),
        Command::Code => prepared_answer(listed_code(alloc, input)),
        Command::Gen(n) => Ok(Prepared::Given(text_answer(alloc, generate(alloc, n)?))),
        Command::Load(n, crew) => prepared_load(alloc, n, crew),
    }
}

// An answer that was found, or a refusal.
fn prepared_answer(found: Result<Answer, Refusal>) -> Result<Prepared, Refusal>
    ensures { result ≡ prepared_answer found }
{
    match found {
        Ok(answer) => Ok(Prepared::Given(answer)),
        Err(refusal) => Err(refusal),
    }
}

// A service and a script that are to be run by an engine, and told so.
fn ready(alloc: Global, telling: Telling, engine: Engine, input: &[u8]) -> Result<Prepared, Refusal>
    ensures { AreReady telling engine input.now result }
{
    match accept(alloc, input) {
        Ok(work) => Ok(Prepared::Run(Task { telling, engine }, work)),
        Err(refusal) => Err(refusal),
    }
}

// A service and a script with policies that are to be run piece by piece by an engine, and listed.
fn prepared_stages(
    alloc: Global,
    places: Places,
    engine: Engine,
    input: &[u8],
) -> Result<Prepared, Refusal>
    ensures { (c : Command) → staged_of c ≡ Some (places, engine) → ((due : Answer) → Only (IsDueElastic places input.now) due → IsToldFor c input.now due) → IsFound c input.now result }
{
    match accept_elastic(alloc, input) {
        Ok(work) => Ok(Prepared::Stages(places, engine, work)),
        Err(refusal) => Err(refusal),
    }
}

// A service, a checkpoint and a script that a crew is to run from there, and list.
fn prepared_resumption(
    alloc: Global,
    places: Places,
    crew: Crew,
    input: &[u8],
) -> Result<Prepared, Refusal>
    requires { length input.now ≤ LONG_INPUT_BYTES }
    ensures { IsFound (command.Resume places crew) input.now result }
{
    let task = Task {
        telling: Telling::Reports(Report::Listing(places)),
        engine: Engine::of_crew(crew),
    };
    match accept_resumed(alloc, input) {
        Ok(work) => Ok(Prepared::Run(task, work)),
        Err(refusal) => Err(refusal),
    }
}

// The generated load of a number, which a crew is to run, summed up.
fn prepared_load(alloc: Global, n: u64, crew: Crew) -> Result<Prepared, Refusal>
    ensures { (bytes : List ℕ) → IsFound (command.Load n crew) bytes result }
{
    let load = generate(alloc, n)?;
    if load.len() > INPUT_BYTES {
        return Err(Refusal::Due(too_large(alloc)?));
    }
    let telling = Telling::Reports(Report::Summary);
    ready(
        alloc,
        telling,
        Engine::Workers(crew.workers),
        load.as_slice(),
    )
}

// What is due where a service is typed and nothing more is asked.
fn approval(alloc: Global) -> Result<Answer, OutOfMemory>
    ensures { IfOk result (λ a. a ≡ approval) }
{
    let text = Vec::from_slice(alloc, b"ok\n")?;
    Ok(text_answer(alloc, Seq::from_vec(text)))
}

// What is due for a service that is to be checked.
fn check_answer(alloc: Global, input: &[u8]) -> Result<Answer, Refusal>
    ensures { IsOnlyDueOf (IsDueService (λ tree a. a ≡ approval) (service_of input.now)) result }
{
    let (text, _) = parts_of(input);
    match service_of_text(alloc, text) {
        Ok(_) => Ok(approval(alloc)?),
        Err(refusal) => Err(refusal),
    }
}

// A service in canonical layout.
fn layout(alloc: Global, service: &Service) -> Result<Answer, OutOfMemory>
    requires { IsParsed (service_tree service.now) }
    ensures { IfOk result (Only (IsPrinted (service_tree service.now))) }
{
    Ok(text_answer(alloc, print(alloc, service)?))
}

// What is due for a service that is to be printed.
fn print_answer(alloc: Global, input: &[u8]) -> Result<Answer, Refusal>
    ensures { IsOnlyDueOf (IsDueService IsPrinted (service_of input.now)) result }
{
    let (text, _) = parts_of(input);
    match service_of_text(alloc, text) {
        Ok((typed, _)) => Ok(layout(alloc, &typed.service)?),
        Err(refusal) => Err(refusal),
    }
}

// The code of a service.
fn listing_of(alloc: Global, program: &Program) -> Result<Answer, OutOfMemory>
    requires { All (CanList program.now.shape) program.now.functions }
    ensures { IfOk result (λ a. a ≡ text_answer (program_text program.now)) }
{
    Ok(text_answer(alloc, code_listing(alloc, program)?))
}

// What is due for a service whose code is asked for.
fn listed_code(alloc: Global, input: &[u8]) -> Result<Answer, Refusal>
    ensures { IsOnlyDueOf (IsDueService IsListedCode (service_of input.now)) result }
{
    let (text, _) = parts_of(input);
    match service_of_text(alloc, text) {
        Ok((_, code)) => Ok(listing_of(alloc, code.program())?),
        Err(refusal) => Err(refusal),
    }
}
