//! Methods and events, each as a whole.

ghost use Rattle.std.specs.Prelude.{◌≡◌, ◌+◌, ◌&&◌, is_none, length, map};
ghost use Rattle.std.specs.Option.{option_map, option_map_or};
ghost use Rattle.value_ops.specs.Rows.{first_builtin};
ghost use Rattle.resolved_service.specs.Steps.{surely_ends};
ghost use Rattle.mace_ast.specs.Decls.{last_tree, method_tree, phase_tree, event_tree};
ghost use Rattle.mace_ast.specs.Stmts.{stmt_tree, stmts_of, no_stmts};
ghost use Rattle.type_rules.specs.Demands.{Judges};
ghost use Rattle.type_rules.specs.Here as places;
ghost use Rattle.type_rules.specs.Here.{rows_of};
ghost use Rattle.type_rules.specs.Known as known;
ghost use Rattle.type_rules.specs.Stmts.{after_all, resolve_stmts, stmts_demands};
ghost use Rattle.type_rules.specs.Functions as rules;
ghost use Rattle.type_rules.specs.Views.{last_view, method_view, phase_view, event_view};
ghost use Rattle.context_types.specs.inner.Judged.{FewFields, AllFew};
ghost use Rattle.context_types.specs.inner.Places.{here_of, function_of, AreSteps};

use crate::here::{Here, Within};
use mace_ast::{EventDecl, Last as LastDecl, MethodDecl, Name, Phase as PhaseDecl, Stmt};
use resolved_service::{Event, Last, Method, Phase, Stmt as Step, surely_ends};
use std::alloc::Global;
use type_rules::TypeError;
use type_tables::{Tables, kinds_of};
use wave_base::{Class, Kind, Seq, Txt, push};

/// Whether nothing before the n-th has a name, by the first that has it.
pub fn none_before(n: usize, first: Option<u16>) -> bool
    ensures { result ≡ known.none_before n first }
{
    match first {
        None => true,
        Some(first) => n <= first as usize,
    }
}

// Whether a class's method with a number may have a name: no earlier one has it, and no builtin.
fn is_free(tables: &Tables, class: u16, number: usize, name: &Txt) -> bool
    ensures { result ≡ (known.none_before number (known.method_named tables.now class name.now) && is_none (first_builtin (rows_of tables.now) name.now)) }
{
    if !none_before(number, tables.method(class, name)) {
        return false;
    }
    tables.builtin(name).is_none()
}

/// A class's method with a number among all methods.
pub fn method(
    alloc: Global,
    tables: &Tables,
    class: u16,
    number: usize,
    m: &MethodDecl,
) -> Result<Method, TypeError>
    requires { FewFields tables.now (class + 1) }
    ensures { Judges (rules.method_demands tables.now class number (method_tree m.now)) (λ made. rules.resolve_method tables.now class number (method_tree m.now) ≡ method_view made) result }
{
    let name = &m.name.text;
    if !is_free(tables, class, number, name) {
        return Err(TypeError::Duplicate(m.name.at));
    }
    let mut here = Here::start(alloc, tables, class, number, Within::Method(m.result));
    here.method_params(alloc, m.params.as_slice())?;
    let body = here.stmts(alloc, m.body.as_slice())?;
    let ended = surely_ends(body.as_slice());
    let last = here.last(alloc, &m.name, ended, m.result, &m.last)?;
    Ok(Method {
        at: m.at,
        name: name.copy(alloc)?,
        class: Class(class),
        params: kinds_of(alloc, &m.params)?,
        result: m.result,
        locals: here.into_slots(),
        body: Seq::from_vec(body),
        last,
    })
}

/// An event with a number among all events.
pub fn event(
    alloc: Global,
    tables: &Tables,
    number: usize,
    e: &EventDecl,
) -> Result<Event, TypeError>
    requires { AllFew tables.now }
    ensures { Judges (rules.event_demands tables.now number (event_tree e.now)) (λ made. rules.resolve_event tables.now (event_tree e.now) ≡ event_view made) result }
{
    if !none_before(number, tables.event(&e.name.text)) {
        return Err(TypeError::Duplicate(e.name.at));
    }
    let within = Within::Event(e.result);
    let mut here = Here::start(alloc, tables, 0, tables.method_count(), within);
    here.event_params(alloc, e.params.as_slice())?;
    let first = here.first(alloc, &e.here)?;
    let ended = surely_ends(first.as_slice());
    let made = here.phases(alloc, ended, e.phases.as_slice())?;
    let (phases, past) = made;
    let last = here.last(alloc, &e.name, past, e.result, &e.last)?;
    Ok(Event {
        at: e.at,
        locals: here.into_slots(),
        here: Seq::from_vec(first),
        phases: Seq::from_vec(phases),
        last,
    })
}

impl<'t> Here<'t> {
    // Where a method or an event begins.
    fn start(
        alloc: Global,
        known: &'t Tables,
        class: u16,
        function: usize,
        within: Within,
    ) -> Here<'t>
        requires { FewFields known.now (class + 1) }
        ensures { here_of result ≡ places.start known.now class function (function_of within) }
    {
        Here {
            known,
            class,
            function,
            within,
            locals: Vec::new(alloc),
            slots: Vec::new(alloc),
        }
    }

    fn into_slots(self) -> Seq<Kind>
        ensures { result ≡ self.entry.slots.items }
    {
        let Here {
            known: _,
            class: _,
            function: _,
            within: _,
            locals: _,
            slots,
        } = self;
        Seq::from_vec(slots)
    }

    // The statements at the root, if any are written.
    fn first(&mut self, alloc: Global, body: &Option<Seq<Stmt>>) -> Result<Vec<Step>, TypeError>
        ensures { let ss = option_map_or stmts_of (option_map (map stmt_tree) body.now) no_stmts in
            Judges (stmts_demands (here_of self.old) ss) (λ steps. AreSteps (after_all (here_of self.old) ss) (resolve_stmts (here_of self.old) ss) self.new steps.items) result }
    {
        match body {
            None => Ok(Vec::new(alloc)),
            Some(body) => self.stmts(alloc, body.as_slice()),
        }
    }

    // What is returned or replied, by the kind that is to be, behind statements that surely end, or not.
    fn last(
        &self,
        alloc: Global,
        name: &Name,
        ended: bool,
        gives: Option<Kind>,
        last: &Option<LastDecl>,
    ) -> Result<Option<Last>, TypeError>
        ensures { let tree = option_map last_tree last.now in
            Judges (rules.last_demands (here_of self.now) name.now ended gives tree) (λ made. option_map (rules.resolve_last (here_of self.now)) tree ≡ option_map last_view made) result }
    {
        let Some(last) = last else {
            if gives.is_some() && !ended {
                return Err(TypeError::MissingReply(name.at));
            }
            return Ok(None);
        };
        if ended {
            return Err(TypeError::Unreachable(last.at));
        }
        let Some(kind) = gives else {
            return Err(TypeError::Mismatch(last.at));
        };
        let value = self.expr_of(alloc, kind, &last.value)?;
        Ok(Some(Last { at: last.at, value }))
    }

    // Phases, each behind one that does not surely end; and whether the last one does.
    fn phases(
        &mut self,
        alloc: Global,
        ended: bool,
        phases: &[PhaseDecl],
    ) -> Result<(Vec<Phase>, bool), TypeError>
        requires { AllFew self.old.known.now }
        ensures { let h = here_of self.old in let ps = map phase_tree phases.now in
            Judges (rules.phases_demands h ended ps)
            (λ made. (rules.event_end h ps ≡ here_of self.new) × (rules.resolve_phases h ps ≡ map phase_view made.0.items) × (rules.ended_behind h ended ps ≡ made.1)) result }
    {
        let mut made = Vec::new(alloc);
        let mut past = ended;
        for phase in phases {
            let phase = self.phase(alloc, past, phase)?;
            past = surely_ends(phase.body.as_slice());
            push(&mut made, phase)?;
        }
        Ok((made, past))
    }

    fn phase(&mut self, alloc: Global, ended: bool, phase: &PhaseDecl) -> Result<Phase, TypeError>
        requires { AllFew self.old.known.now }
        ensures { Judges (rules.phase_demands (here_of self.old) ended (phase_tree phase.now))
            (λ made. (rules.phase_end (here_of self.old) (phase_tree phase.now) ≡ here_of self.new) × (rules.resolve_phase (here_of self.old) (phase_tree phase.now) ≡ phase_view made)) result }
    {
        if ended {
            return Err(TypeError::Unreachable(phase.at));
        }
        let class = self.child(phase.at, &phase.class)?;
        let key = self.expr_of(alloc, Kind::Int, &phase.key)?;
        self.class = class;
        let body = self.stmts(alloc, phase.body.as_slice())?;
        Ok(Phase {
            at: phase.at,
            class: Class(class),
            key,
            body: Seq::from_vec(body),
        })
    }
}
