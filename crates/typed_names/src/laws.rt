//! The law of names: it is the contract of a function that does nothing.

ghost use Rattle.wave_base.specs.Names.{HasNames};
ghost use Rattle.mace_ast.specs.Decls.{ServiceTree};
ghost use Rattle.mace_printer.specs.Written.{IsParsed};
ghost use Rattle.type_rules.specs.Known.{shape_of};
ghost use Rattle.type_rules.specs.Services.{IsTyped};

/// The shape of a service that was parsed and is typed has names: those of its classes, of its events and of the fields of each class are words of at
/// most 64 bytes, and among each of these lists no two are the same.
pub fn typed_services_have_names()
    ensures { (tree : ServiceTree) → IsParsed tree → IsTyped tree → HasNames (shape_of tree) }
{}
