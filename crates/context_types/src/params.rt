//! Parameters as the first locals.

ghost use Rattle.std.specs.Prelude.{◌≡◌};
ghost use Rattle.type_rules.specs.Demands.{Judges};
ghost use Rattle.type_rules.specs.Here.{with_local};
ghost use Rattle.type_rules.specs.Functions as rules;
ghost use Rattle.context_types.specs.inner.Places.{here_of};

use crate::here::Here;
use mace_ast::Param;
use std::alloc::Global;
use type_rules::{TypeError, Which};
use type_tables::same_kind;
use wave_base::{Kind, PARAMS};

impl Here<'_> {
    /// The parameters of a method.
    pub fn method_params(&mut self, alloc: Global, params: &[Param]) -> Result<(), TypeError>
        ensures { Judges (rules.method_params_demands (here_of self.old) params.now) (λ _. rules.after_params (here_of self.old) params.now ≡ here_of self.new) result }
    {
        for param in params {
            self.param(alloc, param)?;
        }
        Ok(())
    }

    /// The parameters of an event, none of which is a map.
    pub fn event_params(&mut self, alloc: Global, params: &[Param]) -> Result<(), TypeError>
        ensures { Judges (rules.event_params_demands (here_of self.old) params.now) (λ _. rules.after_params (here_of self.old) params.now ≡ here_of self.new) result }
    {
        for param in params {
            self.param(alloc, param)?;
            if same_kind(param.kind, Kind::Map) {
                return Err(TypeError::Mismatch(param.name.at));
            }
        }
        Ok(())
    }

    fn param(&mut self, alloc: Global, param: &Param) -> Result<(), TypeError>
        ensures { Judges (rules.param_asks (here_of self.old) param.now) (λ _. with_local (here_of self.old) param.now.name.text param.now.kind ≡ here_of self.new) result }
    {
        let slot = self.slots.len();
        if slot >= PARAMS {
            return Err(TypeError::Limit(Which::Params, param.name.at));
        }
        if self.local(&param.name.text).is_some() {
            return Err(TypeError::Duplicate(param.name.at));
        }
        self.declare(alloc, &param.name.text, param.kind, slot as u16)?;
        Ok(())
    }
}
