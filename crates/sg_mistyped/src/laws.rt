//! A law of mismatches, as the contract of a function without code.
ghost use Rattle.std.specs.Prelude.{◌≡◌, List, map};
ghost use Rattle.sg_ast.specs.Declarations.{Decl};
ghost use Rattle.sg_names.specs.declared.table.Table.{Table};
ghost use Rattle.sg_typing.specs.Mismatches.{mismatches};
ghost use Rattle.sg_mistyped.specs.Mistyped.{mistypes};
ghost use Rattle.sg_mistyped.specs.declared.mistyped.Mistyped.{Mistyped};

/// The mismatches with types stand at all mismatches, of which the first is the fault of a text that has one.
pub fn mistypes_are_mismatches()
    ensures { (t : Table) (ds : List Decl) → map (λ (m : Mistyped). m.place) (mistypes t ds) ≡ mismatches t ds }
{}
