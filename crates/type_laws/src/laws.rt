//! What follows for a service that keeps the rules of types.

ghost use Rattle.std.specs.Prelude.{◌≡◌, ◌<◌, ◌^◌, length};
ghost use Rattle.wave_base.specs.Shapes.{IsShape};
ghost use Rattle.mace_ast.specs.Decls.{ServiceTree};
ghost use Rattle.resolved_service.specs.declared.service.Resolved.{Resolved};
ghost use Rattle.resolved_service.specs.Fits.{FitsService};
ghost use Rattle.type_rules.specs.Known.{shape_of};
ghost use Rattle.type_rules.specs.Services.{IsTyped, resolve_service};
ghost use Rattle.type_rules.specs.Views.{resolved_view};
ghost use Rattle.type_laws.specs.Differ.{NamesDiffer};

/// The shape of a typed service, of which classes and events can be numbered, is all that is asked of a shape.
pub fn shapes_are_shapes()
    ensures { (s : ServiceTree) → IsTyped s → length (shape_of s).classes < 2 ^ 16 → length (shape_of s).events < 2 ^ 16 → IsShape (shape_of s) }
{}

/// Classes of a typed service have names that differ, and so have its events, and the fields of each class.
pub fn names_differ()
    ensures { (s : ServiceTree) → IsTyped s → NamesDiffer (shape_of s) }
{}

/// A typed service with its names resolved fits its shape: callees and children are there.
pub fn resolved_services_fit()
    ensures { (s : ServiceTree) (resolved : Resolved) → IsTyped s → resolved_view resolved ≡ resolve_service s → FitsService (shape_of s) resolved }
{}
