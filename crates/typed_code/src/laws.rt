//! A law of types: a typed service has code.

ghost use Rattle.std.specs.Prelude.{◌≡◌};
ghost use Rattle.wave_base.specs.declared.shape.Shape.{Shape};
ghost use Rattle.wave_base.specs.Shapes.{IsShape};
ghost use Rattle.mace_ast.specs.Decls.{ServiceTree};
ghost use Rattle.resolved_service.specs.declared.service.Resolved.{Resolved};
ghost use Rattle.type_rules.specs.Known.{shape_of};
ghost use Rattle.type_rules.specs.Services.{IsTyped, resolve_service};
ghost use Rattle.type_rules.specs.Views.{resolved_view};
ghost use Rattle.code_scheme.specs.Programs.{scheme_program};
ghost use Rattle.code_scheme.specs.Typed as code;

/// A typed service with its names resolved is what the scheme asks for: each expression has its kind, and each callee,
/// child, field, local and event is there. So its code is fit, the verifier accepts it, and it means what the service means.
pub fn typed_services_have_code()
    ensures { (s : ServiceTree) (resolved : Resolved) → IsTyped s → IsShape (shape_of s) → resolved_view resolved ≡ resolve_service s → code.IsTyped (shape_of s) resolved }
{}

/// Two services that look alike have the same program: the code of a service hangs on what its names stand for alone, and not on how the trees
/// are held.
pub fn views_tell_code()
    ensures { (shape : Shape) (a b : Resolved) → resolved_view a ≡ resolved_view b → scheme_program shape a ≡ scheme_program shape b }
{}
