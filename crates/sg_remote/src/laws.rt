//! Laws of the definitions, each as the contract of a function without code.
ghost use Rattle.std.specs.Prelude.{◌≡◌, ℕ, List, Option, Some, flat_map, map, true};
ghost use Rattle.sg_ast.specs.Declarations.{Decl};
ghost use Rattle.sg_ast.specs.Rising.{places_of, RiseFrom, SomeOf};
ghost use Rattle.sg_kinds.specs.Sound.{HasShapes};
ghost use Rattle.sg_kinds.specs.declared.fault.Position.{Position};
ghost use Rattle.sg_kinds.specs.declared.fault.SpecFault.TheVariants.{NoEnclosing};
ghost use Rattle.sg_kinds.specs.declared.fault.SpecFault.{SpecFault};
ghost use Rattle.sg_kinds.specs.declared.spec.Far.{Far};
ghost use Rattle.sg_kinds.specs.declared.spec.Spec.{Spec};
ghost use Rattle.sg_names.specs.Drafted.{drafted, HasTable};
ghost use Rattle.sg_names.specs.declared.table.Table.{Table};
ghost use Rattle.sg_remote.specs.Atoms.{atoms};
ghost use Rattle.sg_remote.specs.Bearing.{Bears, IsOpen, bears, is_open};
ghost use Rattle.sg_remote.specs.NoEnclosing.{HasBareNode, IsBare, IsFirstBare, IsNoEnclosing};
ghost use Rattle.sg_remote.specs.declared.atoms.Atom.{Atom};

/// The passes put up the flags of the phyla that bear a far attribute, and of those that are open to a list, and no
/// others.
pub fn reached_is_least()
    ensures bears { (t : Table) (ds : List Decl) (fs : List Far) (p : ℕ) → bears t ds fs p ≡ true → Bears t ds fs p }
    ensures all_bear { (t : Table) (ds : List Decl) (fs : List Far) (p : ℕ) → Bears t ds fs p
        → bears t ds fs p ≡ true }
    ensures opens { (t : Table) (fs : List Far) (p : ℕ) → is_open t fs p ≡ true → IsOpen (drafted t) fs p }
    ensures all_open { (t : Table) (fs : List Far) (p : ℕ) → IsOpen (drafted t) fs p → is_open t fs p ≡ true }
{}

/// A reference is bare exactly where some node of its operator, in some term of the root phylum, has no enclosing node
/// of a listed phylum.
pub fn bare_nodes()
    ensures some { (t : Table) (spec : Spec) → HasTable t spec → HasShapes spec → (a : Atom) → IsBare t a
        → HasBareNode spec a.op a.list }
    ensures only { (t : Table) (spec : Spec) → HasTable t spec → (a : Atom) → HasBareNode spec a.op a.list
        → IsBare t a }
{}

/// There is one answer to which reference is the first bare one.
pub fn one_answer()
    ensures { (t : Table) (ds : List Decl) (f g : Option SpecFault) → IsNoEnclosing t ds f → IsNoEnclosing t ds g
        → f ≡ g }
{}

/// The references to enclosing nodes are met in the order of the text. So of declarations whose places rise, as those
/// of a text do, the first bare one stands before all others.
pub fn atoms_follow_the_text()
    ensures order { (t : Table) (ds : List Decl)
        → SomeOf (map (λ (a : Atom). a.place) (atoms t ds)) (flat_map places_of ds) }
    ensures first { (ds : List Decl) → RiseFrom 0 (flat_map places_of ds) → (t : Table) (p : Position)
        → IsNoEnclosing t ds (Some (NoEnclosing p)) → IsFirstBare t ds p }
{}
