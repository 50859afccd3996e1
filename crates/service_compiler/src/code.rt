//! The code of a program in the making.

ghost use Rattle.std.specs.Prelude.{◌≡◌, ℕ, ◌<◌, ◌+◌, ◌^◌, [], ◌∷◌, ◌++◌, length, IfOk, OnOk, slice_set};
ghost use Rattle.service_code.specs.declared.instr.Instr.{Instr};
ghost use Rattle.code_scheme.specs.Scheme.{line};
ghost use Rattle.code_scheme.specs.Texts.{place_of_text};
ghost use Rattle.service_compiler.specs.inner.Drafts.{Draft, Emits, Puts, new_draft};

use crate::texts::Texts;
use code_scheme::Line;
use service_code::{Function, Instr};
use std::alloc::Global;
use std::marker::Model;
use wave_base::{INSTRUCTIONS, OutOfMemory, Seq, Span, Txt};

/// The functions that are done, the texts that the code uses so far, and the lines of the function that comes next. Past as many lines as
/// a function may have no line is kept and no text noted: from there on lines are counted alone, 4,294,967,295 for that many or more. So
/// there are fewer texts than numbers of 32 bits, and a line's number has 16 bits.
#[derive(Drop)]
pub struct Code {
    alloc: Global,
    functions: Vec<Function>,
    texts: Texts,
    lines: Vec<Line>,
    count: u32,
}

impl Model for Code {
    ghost use Rattle.service_compiler.specs.inner.Drafts.{Draft, HasRoom};

    ghost Value = { Draft };

    ghost view = { λ c. record { functions = c.functions.items; texts = c.texts; lines = c.lines.items; count = c.count } };

    ghost invariant = { λ c. HasRoom c.functions.items c.texts c.lines.items };
}

impl Code {
    /// No functions yet.
    pub fn new(alloc: Global) -> Code
        ensures { result ≡ new_draft [] [] }
    {
        Code {
            alloc,
            functions: Vec::new(alloc),
            texts: Texts::new(alloc),
            lines: Vec::new(alloc),
            count: 0,
        }
    }

    /// The number of the line that comes next.
    pub fn here(&self) -> u16
        ensures { result ≡ length self.now.lines }
    {
        self.lines.len() as u16
    }

    /// One line more.
    pub fn put(&mut self, instr: Instr, place: Span) -> Result<(), OutOfMemory>
        ensures { OnOk result (Puts self.old self.new (line instr place ∷ [])) }
    {
        if self.lines.len() < INSTRUCTIONS {
            self.lines.push(Line { instr, place })?;
        }
        self.count = self.count.saturating_add(1);
        Ok(())
    }

    /// The number of a text, or how many there are where it isn't among them: the number that it will have.
    pub fn text_number(&self, text: &Txt) -> u32
        ensures { result ≡ place_of_text self.now.texts text.now }
    {
        self.texts.place(text.bytes())
    }

    /// One line more, whose instruction names a text by its number.
    pub fn put_use(&mut self, text: &Txt, instr: Instr, place: Span) -> Result<(), OutOfMemory>
        ensures { OnOk result ((names : ℕ → Instr) → instr ≡ names (place_of_text self.old.texts text.now) → Emits self.old self.new (text.now ∷ []) (λ texts n. line (names (place_of_text texts text.now)) place ∷ [])) }
    {
        if self.lines.len() < INSTRUCTIONS {
            self.lines.push(Line { instr, place })?;
            self.texts.note(self.alloc, text)?;
        }
        self.count = self.count.saturating_add(1);
        Ok(())
    }

    /// Writes a line anew, if it was kept.
    pub fn patch(&mut self, number: u16, instr: Instr, place: Span)
        ensures { self.new ≡ record self.old { lines = slice_set self.old.lines number (line instr place) } }
    {
        if let Some(line) = self.lines.get_mut(number as usize) {
            *line = Line { instr, place };
        }
    }

    /// The number of the function that comes next.
    pub fn function(&self) -> u16
        ensures { result ≡ length self.now.functions }
    {
        self.functions.len() as u16
    }

    /// How many lines it has so far.
    pub fn line_count(&self) -> u32
        ensures { result ≡ self.now.count }
    {
        self.count
    }

    /// Its lines so far, where there are not too many.
    pub fn lines(&self) -> &[Line]
        ensures { result.now ≡ self.now.lines }
    {
        self.lines.as_slice()
    }

    /// Adds the function whose lines are here, and begins the next one.
    pub fn finish(&mut self, function: Function) -> Result<(), OutOfMemory>
        requires { length self.old.functions + 1 < 2 ^ 16 }
        ensures { OnOk result (self.new ≡ new_draft (self.old.functions ++ function ∷ []) self.old.texts) }
    {
        self.functions.push(function)?;
        self.lines.clear();
        self.count = 0;
        Ok(())
    }

    /// The functions and the texts.
    pub fn into_parts(self) -> Result<(Seq<Function>, Seq<Txt>), OutOfMemory>
        ensures functions { IfOk result (λ parts. parts.0 ≡ self.functions) }
        ensures texts { IfOk result (λ parts. parts.1 ≡ self.texts) }
        ensures few { IfOk result (λ parts. length parts.0 < 2 ^ 16) }
    {
        let texts = self.texts.to_seq(self.alloc)?;
        Ok((Seq::from_vec(self.functions), texts))
    }
}
