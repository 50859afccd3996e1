//! What each instruction asks of the stack, and what it gives.

ghost use Rattle.std.specs.Prelude.{◌≡◌, ◌≤◌, Some, None, length, slice_get, option_map};
ghost use Rattle.value_ops.specs.Rows.{wave_rows_2};
ghost use Rattle.wave_base.specs.Shapes.{kinds_of_class};
ghost use Rattle.service_verify.specs.inner.Asks.{asked_effect, takes_in, Finds, Has};
ghost use Rattle.service_verify.specs.Rules.{effect_of, classes_above, levels_above, takes_for_map};

use crate::error::Rule;
use service_code::{Function, Instr, Program};
use value_ops::OpTable;
use wave_base::{CLASS_DEPTH, Class, Kind, OPERATORS, Shape};

/// What an instruction takes from the stack.
#[derive(Clone, Copy, Debug)]
pub enum Takes<'p> {
    /// It takes nothing.
    Nothing,
    /// A value of any kind.
    Any,
    /// A value of this kind.
    One(Kind),
    /// A key, and a whole number above it.
    Pair,
    /// Values of these kinds, the last on top.
    Kinds(&'p [Kind]),
    /// Values of these kinds, above a key.
    Keyed(&'p [Kind]),
    /// Operands, the last on top.
    Row([Option<Kind>; 3]),
}

/// What an instruction takes from the stack, and what it gives.
#[derive(Clone, Copy, Debug)]
pub struct Asks<'p> {
    /// What it takes.
    pub takes: Takes<'p>,
    /// The kind of the value that it puts there, if any.
    pub gives: Option<Kind>,
}

/// A function that is judged, with its number, in its program.
#[derive(Clone, Copy)]
pub struct Judge<'p> {
    /// The program that it is of.
    pub program: &'p Program,
    /// The operator table.
    pub operators: &'p OpTable<34>,
    /// Its place among the program's functions.
    pub number: u16,
    /// The function.
    pub function: &'p Function,
}

fn taking(takes: Takes<'_>) -> Asks<'_>
    ensures takes { result.takes ≡ takes.entry }
    ensures gives { result.gives ≡ None }
{
    Asks { takes, gives: None }
}

fn giving<'p>(kind: Kind) -> Asks<'p>
    ensures takes { result.takes ≡ Takes.Nothing }
    ensures gives { result.gives ≡ Some kind }
{
    Asks {
        takes: Takes::Nothing,
        gives: Some(kind),
    }
}

impl<'p> Judge<'p> {
    /// What an instruction asks, in a context of this class.
    #[tactic(auto, unfolding(crate::specs::Rules::effect_of))]
    pub fn asks(&self, class: Class, instr: Instr) -> Result<Asks<'p>, Rule>
        requires { self.now.operators.now ≡ wave_rows_2 }
        ensures { asked_effect result ≡ effect_of self.now.program.now self.now.number self.now.function.now class.0 instr }
    {
        match instr {
            Instr::PushInt(_) => Ok(giving(Kind::Int)),
            Instr::PushBool(_) => Ok(giving(Kind::Bool)),
            Instr::PushText(i) => {
                self.text(i)?;
                Ok(giving(Kind::Text))
            }
            Instr::PushEmpty => Ok(giving(Kind::Map)),
            Instr::Load(s) => Ok(giving(self.local(s)?)),
            Instr::Store(s) => Ok(taking(Takes::One(self.local(s)?))),
            Instr::Field(f) => Ok(giving(self.field(class, f)?)),
            Instr::SetField(f) => Ok(taking(Takes::One(self.field(class, f)?))),
            Instr::Above(level, f) => self.above(class, level, f),
            Instr::Op(row) => self.row(row),
            Instr::PutLocal(s) => for_map(self.local(s)?, Takes::Pair),
            Instr::PutField(f) => for_map(self.field(class, f)?, Takes::Pair),
            Instr::CutLocal(s) => for_map(self.local(s)?, Takes::One(Kind::Int)),
            Instr::CutField(f) => for_map(self.field(class, f)?, Takes::One(Kind::Int)),
            Instr::Jump(_) | Instr::Tick => Ok(taking(Takes::Nothing)),
            Instr::JumpFalse(_) | Instr::Require => Ok(taking(Takes::One(Kind::Bool))),
            Instr::Call(g) => self.call(class, g),
            Instr::CallDown(child, g) => self.call_down(class, child, g),
            Instr::Return => self.ends_method(),
            Instr::Pop => Ok(taking(Takes::Any)),
            Instr::Send(i) => {
                self.text(i)?;
                Ok(taking(Takes::Any))
            }
            Instr::Spawn(event) => self.spawn(event),
            Instr::Go(child) => self.go(class, child),
            Instr::Reply => self.replies(),
            Instr::End => self.ends_event(),
        }
    }

    // The kind of a local.
    fn local(&self, s: u16) -> Result<Kind, Rule>
        ensures { Finds (slice_get self.now.function.now.locals s) Rule.Field result }
    {
        match self.function.locals.get(s as usize) {
            Some(kind) => Ok(*kind),
            None => Err(Rule::Field),
        }
    }

    // The kind of a field of a class.
    fn field(&self, class: Class, f: u16) -> Result<Kind, Rule>
        ensures { Finds (slice_get (kinds_of_class self.now.program.now.shape class.0) f) Rule.Field result }
    {
        let classes = &self.program.shape.classes;
        match classes.get(class.0 as usize) {
            Some(class) => match class.fields.get(f as usize) {
                Some(field) => Ok(field.kind),
                None => Err(Rule::Field),
            },
            None => Err(Rule::Field),
        }
    }

    fn text(&self, i: u32) -> Result<(), Rule>
        ensures { Has (slice_get self.now.program.now.texts i) Rule.Field result }
    {
        match self.program.texts.get(i as usize) {
            Some(_) => Ok(()),
            None => Err(Rule::Field),
        }
    }

    #[tactic(auto, unfolding(crate::specs::Rules::effect_of))]
    fn above(&self, class: Class, level: u16, f: u16) -> Result<Asks<'p>, Rule>
        ensures { asked_effect result ≡ effect_of self.now.program.now self.now.number self.now.function.now class.0 (Instr.Above level f) }
    {
        match ancestor(&self.program.shape, class, level as usize) {
            Some(class) => Ok(giving(self.field(class, f)?)),
            None => Err(Rule::Field),
        }
    }

    #[tactic(auto, unfolding(crate::specs::Rules::effect_of))]
    fn row(&self, row: u16) -> Result<Asks<'p>, Rule>
        requires { self.now.operators.now ≡ wave_rows_2 }
        ensures { asked_effect result ≡ effect_of self.now.program.now self.now.number self.now.function.now 0 (Instr.Op row) }
    {
        if row as usize >= OPERATORS {
            return Err(Rule::Field);
        }
        let operator = self.operators.row(row as usize);
        Ok(Asks {
            takes: Takes::Row(operator.takes),
            gives: Some(operator.gives),
        })
    }

    #[tactic(auto, unfolding(crate::specs::Rules::effect_of))]
    fn call(&self, class: Class, g: u16) -> Result<Asks<'p>, Rule>
        ensures { asked_effect result ≡ effect_of self.now.program.now self.now.number self.now.function.now class.0 (Instr.Call g) }
    {
        match self.program.functions.get(g as usize) {
            Some(f) if !f.is_event && f.class.0 == class.0 && g < self.number => Ok(Asks {
                takes: Takes::Kinds(f.args.as_slice()),
                gives: f.result,
            }),
            _ => Err(Rule::Call),
        }
    }

    #[tactic(auto, unfolding(crate::specs::Rules::effect_of))]
    fn call_down(&self, class: Class, child: Class, g: u16) -> Result<Asks<'p>, Rule>
        ensures { asked_effect result ≡ effect_of self.now.program.now self.now.number self.now.function.now class.0 (Instr.CallDown child g) }
    {
        if !self.program.shape.is_child(class, child) {
            return Err(Rule::Call);
        }
        match self.program.functions.get(g as usize) {
            Some(f) if !f.is_event && f.class.0 == child.0 => Ok(Asks {
                takes: Takes::Keyed(f.args.as_slice()),
                gives: f.result,
            }),
            _ => Err(Rule::Call),
        }
    }

    #[tactic(auto, unfolding(crate::specs::Rules::effect_of))]
    fn ends_method(&self) -> Result<Asks<'p>, Rule>
        ensures { asked_effect result ≡ effect_of self.now.program.now self.now.number self.now.function.now 0 Instr.Return }
    {
        if self.function.is_event {
            return Err(Rule::Call);
        }
        match self.function.result {
            Some(kind) => Ok(taking(Takes::One(kind))),
            None => Ok(taking(Takes::Nothing)),
        }
    }

    #[tactic(auto, unfolding(crate::specs::Rules::effect_of))]
    fn spawn(&self, event: u16) -> Result<Asks<'p>, Rule>
        ensures { asked_effect result ≡ effect_of self.now.program.now self.now.number self.now.function.now 0 (Instr.Spawn event) }
    {
        match self.program.shape.events.get(event as usize) {
            Some(event) => Ok(taking(Takes::Kinds(event.params.as_slice()))),
            None => Err(Rule::Call),
        }
    }

    #[tactic(auto, unfolding(crate::specs::Rules::effect_of))]
    fn go(&self, class: Class, child: Class) -> Result<Asks<'p>, Rule>
        ensures { asked_effect result ≡ effect_of self.now.program.now self.now.number self.now.function.now class.0 (Instr.Go child) }
    {
        if self.function.is_event && self.program.shape.is_child(class, child) {
            Ok(taking(Takes::One(Kind::Int)))
        } else {
            Err(Rule::Call)
        }
    }

    #[tactic(auto, unfolding(crate::specs::Rules::effect_of))]
    fn replies(&self) -> Result<Asks<'p>, Rule>
        ensures { asked_effect result ≡ effect_of self.now.program.now self.now.number self.now.function.now 0 Instr.Reply }
    {
        if !self.function.is_event {
            return Err(Rule::Call);
        }
        match self.function.result {
            Some(kind) => Ok(taking(Takes::One(kind))),
            None => Err(Rule::Kind),
        }
    }

    #[tactic(auto, unfolding(crate::specs::Rules::effect_of))]
    fn ends_event(&self) -> Result<Asks<'p>, Rule>
        ensures { asked_effect result ≡ effect_of self.now.program.now self.now.number self.now.function.now 0 Instr.End }
    {
        if !self.function.is_event {
            return Err(Rule::Call);
        }
        match self.function.result {
            Some(_) => Err(Rule::Kind),
            None => Ok(taking(Takes::Nothing)),
        }
    }
}

// A map takes a key, and a value above it where there is one.
fn for_map(kind: Kind, takes: Takes<'_>) -> Result<Asks<'_>, Rule>
    ensures { asked_effect result ≡ takes_for_map (takes_in takes.entry) kind }
{
    match kind {
        Kind::Map => Ok(taking(takes)),
        _ => Err(Rule::Kind),
    }
}

/// The class above a class that is at this level, the root's being 0.
#[tactic(auto, unfolding(crate::specs::Rules::levels_above))]
pub fn ancestor(shape: &Shape, class: Class, level: usize) -> Option<Class>
    ensures { option_map (λ c. c.0) result ≡ slice_get (levels_above shape.now class.0) level }
{
    let nearest = shape.parent(class);
    let levels = count_above(shape, CLASS_DEPTH, nearest);
    if level >= levels {
        return None;
    }
    class_above(shape, CLASS_DEPTH, nearest, levels - 1 - level)
}

// How many classes there are from a class to the root, of the first ones.
fn count_above(shape: &Shape, most: usize, class: Option<Class>) -> usize
    ensures count { result ≡ length (classes_above shape.now most class) }
    ensures few { result ≤ most }
{
    match class {
        Some(class) if most > 0 => 1 + count_above(shape, most - 1, shape.parent(class)),
        _ => 0,
    }
}

// The class that many steps up, of the first ones.
fn class_above(shape: &Shape, most: usize, class: Option<Class>, steps: usize) -> Option<Class>
    ensures { option_map (λ c. c.0) result ≡ slice_get (classes_above shape.now most class) steps }
{
    match class {
        Some(class) if most > 0 => {
            if steps == 0 {
                Some(class)
            } else {
                class_above(shape, most - 1, shape.parent(class), steps - 1)
            }
        }
        _ => None,
    }
}
