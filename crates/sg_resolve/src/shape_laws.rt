//! The law of the shapes of a specification, as the contract of a function without code.
ghost use Rattle.std.specs.Prelude.{◌≡◌, List, None, length};
ghost use Rattle.sg_kinds.specs.Sound.{HasShapes};
ghost use Rattle.sg_kinds.specs.declared.spec.Spec.{Spec};
ghost use Rattle.sg_ast.specs.Declarations.{Decl};
ghost use Rattle.sg_names.specs.Drafted.{HasTable};
ghost use Rattle.sg_names.specs.Names.{names_of};
ghost use Rattle.sg_resolve.specs.Resolved.{resolve_fault};
ghost use Rattle.sg_resolve.specs.ShapeLexemes.{lexeme_count};

/// Where names and shapes have no fault, a specification with these names, and as many patterns as lexeme phyla are
/// declared, has sound shapes.
pub fn shapes_are_sound()
    ensures { (ds : List Decl) (spec : Spec) → resolve_fault ds ≡ None → HasTable (names_of ds) spec
        → length spec.lexemes ≡ lexeme_count ds → HasShapes spec }
{}
