//! The laws of definitions and counts, each as the contract of a function without code.
ghost use Rattle.std.specs.Prelude.{List, flat_map, map};
ghost use Rattle.sg_ast.specs.Declarations.{Decl};
ghost use Rattle.sg_ast.specs.Rising.{places_of, SomeOf};
ghost use Rattle.sg_ast.specs.Parts.{op_places_at};
ghost use Rattle.sg_counts.specs.Definitions.{Key};
ghost use Rattle.sg_counts.specs.Duplicates.{definitions_of};
ghost use Rattle.sg_counts.specs.Limits.{GoesAlong, arities_of, attributes_of, locals_of, parameters_of, schemes_of, symbols_of, views_in};
ghost use Rattle.sg_counts.specs.Limits.{attribute_places, local_places, parameter_places, scheme_places, symbol_places, view_places};
ghost use Rattle.sg_counts.specs.declared.definitions.Definition.{Definition};

/// Definitions are met in the order of the text, so the first that clashes with one before it is the first in the text.
pub fn definitions_follow_the_text()
    ensures { (ds : List Decl) → SomeOf (map (λ (d : Definition Key). d.place) (flat_map definitions_of ds))
        (flat_map places_of ds) }
{}

/// What is counted one by one is met in the order of the text, so the count that is told of a row is that of the first
/// operator, owner, function, declaration of schemes or production whose count is over the limit, in the text. Names of
/// views are met so too.
pub fn counts_follow_the_text()
    ensures arities { GoesAlong arities_of op_places_at }
    ensures attributes { GoesAlong attributes_of attribute_places }
    ensures locals { GoesAlong locals_of local_places }
    ensures parameters { GoesAlong parameters_of parameter_places }
    ensures schemes { GoesAlong schemes_of scheme_places }
    ensures symbols { GoesAlong symbols_of symbol_places }
    ensures views { GoesAlong views_in view_places }
{}
