//! Laws of what is printed, each as the contract of a function without code.
ghost use Rattle.std.specs.Prelude.{◌≡◌, ℕ, suc, ◌+◌, ◌≤◌, true, ◌∷◌, length, take, count_by, nat_eq, Some, slice_get, Contains};
ghost use Rattle.sg_grammar.specs.Numbered.{level_number, symbol_number};
ghost use Rattle.sg_kinds.specs.Dependencies.{occurrence};
ghost use Rattle.sg_kinds.specs.Sound.{HasNames, HasShapes};
ghost use Rattle.sg_kinds.specs.Specification.{attrs_of, rules_of, phylum_name};
ghost use Rattle.sg_kinds.specs.Values.{Bytes};
ghost use Rattle.sg_kinds.specs.Visits.{vertex};
ghost use Rattle.sg_kinds.specs.declared.fault.PrintedSymbol.TheVariants as printed_symbol;
ghost use Rattle.sg_kinds.specs.declared.fault.PrintedVertex.TheVariants as printed_vertex;
ghost use Rattle.sg_kinds.specs.declared.marks.Shape.TheVariants as shape;
ghost use Rattle.sg_kinds.specs.declared.spec.Attr.{Attr};
ghost use Rattle.sg_kinds.specs.declared.spec.Entry.{Entry};
ghost use Rattle.sg_kinds.specs.declared.spec.Local.{Local};
ghost use Rattle.sg_kinds.specs.declared.spec.Operator.{Operator};
ghost use Rattle.sg_kinds.specs.declared.spec.Phylum.{Phylum};
ghost use Rattle.sg_kinds.specs.declared.spec.Production.{Production};
ghost use Rattle.sg_kinds.specs.declared.spec.Spec.{Spec};
ghost use Rattle.sg_kinds.specs.declared.spec.Symbol.TheVariants as symbol;
ghost use Rattle.sg_patterns.specs.Lexemes.{literals_of};
ghost use Rattle.sg_prec.specs.Levels.{height};
ghost use Rattle.sg_reports.specs.Symbols.{level_name, printed_symbols, symbol_in, written_name};
ghost use Rattle.sg_reports.specs.Vertices.{printed_vertices, vertex_in};

/// A vertex is printed as what has its number: an attribute of the left side; an attribute of an argument, with how
/// often the argument's phylum comes up to there among left side and arguments; a local.
pub fn vertices_are_printed_as_numbered()
    ensures own { (spec : Spec) (p : ℕ) (o : Operator) → slice_get spec.ops p ≡ Some o → (slot : ℕ) (a : Attr)
        → slice_get (attrs_of spec.phyla o.phylum) slot ≡ Some a →
        vertex_in (printed_vertices spec p) (vertex (rules_of spec) p (occurrence 0 slot)) ≡ printed_vertex.Own a.name }
    ensures argument { (spec : Spec) (p : ℕ) (o : Operator) → slice_get spec.ops p ≡ Some o
        → (k q slot : ℕ) (a : Attr) → slice_get o.args k ≡ Some q → slice_get (attrs_of spec.phyla q) slot ≡ Some a →
        vertex_in (printed_vertices spec p) (vertex (rules_of spec) p (occurrence (suc k) slot))
        ≡ printed_vertex.Argument (phylum_name spec.phyla q)
        (suc (count_by (nat_eq q) (o.phylum ∷ take k o.args))) a.name }
    ensures local { (spec : Spec) (p : ℕ) (o : Operator) → slice_get spec.ops p ≡ Some o → (slot : ℕ) (l : Local)
        → slice_get o.locals slot ≡ Some l →
        vertex_in (printed_vertices spec p) (vertex (rules_of spec) p
        (occurrence 0 (length (attrs_of spec.phyla o.phylum) + slot))) ≡ printed_vertex.Local l.name }
{}

/// A symbol of the grammar is printed as what has its number: the end, the marker of an entry, a literal, a lexeme
/// phylum, a level of a nonterminal; and each level has the nonterminal's own name besides.
pub fn symbols_are_printed_as_numbered()
    ensures end { (spec : Spec) → symbol_in (printed_symbols spec) 0 ≡ printed_symbol.End }
    ensures marker { (spec : Spec) (k : ℕ) (e : Entry) → slice_get spec.entries k ≡ Some e
        → symbol_in (printed_symbols spec) (suc k) ≡ printed_symbol.Marker (phylum_name spec.phyla e.phylum) }
    ensures literal { (spec : Spec) (s : Bytes) → Contains (literals_of spec.productions) s
        → symbol_in (printed_symbols spec) (symbol_number spec (symbol.Quoted s)) ≡ printed_symbol.Literal s }
    ensures lexeme { (spec : Spec) → HasShapes spec → (p l : ℕ) (x : Phylum) → slice_get spec.phyla p ≡ Some x
        → x.shape ≡ shape.Lexemes l →
        symbol_in (printed_symbols spec) (symbol_number spec (symbol.Lexical p)) ≡ printed_symbol.Name x.name }
    ensures nonterminal { (spec : Spec) → HasShapes spec → HasNames spec → (k : ℕ) (r : Production)
        → slice_get spec.productions k ≡ Some r → (i : ℕ) → i ≤ height spec.levels spec.productions r.left →
        symbol_in (printed_symbols spec) (level_number spec r.left i)
        ≡ printed_symbol.Name (level_name true r.name (height spec.levels spec.productions r.left) i) }
    ensures written { (spec : Spec) → HasShapes spec → HasNames spec → (k : ℕ) (r : Production)
        → slice_get spec.productions k ≡ Some r → (i : ℕ) → i ≤ height spec.levels spec.productions r.left →
        written_name spec (level_number spec r.left i) ≡ r.name }
{}
