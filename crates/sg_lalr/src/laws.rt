//! Laws of tables, each as the contract of a function without code.
ghost use Rattle.std.specs.Prelude.{◌≡◌, ◌≢◌, ℕ, ◌<◌, length};
ghost use Rattle.sg_grammar.specs.Grammar.{Grammar};
ghost use Rattle.sg_lalr.specs.Prefixes.{TooMany};
ghost use Rattle.sg_lalr.specs.Tables.{Action, TableFault, View, IsAction, IsTableFault, IsTables, Leads};
ghost use Rattle.sg_lalr.specs.declared.table.TableFault.TheVariants as fault;

/// A state does one thing on a terminal: the four answers of `Tables::action` exclude each other.
pub fn one_action()
    ensures { (v : View) → IsTables v → (s t : ℕ) → s < length v.cores → t < v.grammar.terminals → (a b : Action)
        → IsAction v s t a → IsAction v s t b → a ≡ b }
{}

/// One state is behind a symbol in a state.
pub fn one_state_behind()
    ensures { (v : View) → IsTables v → (s X : ℕ) → s < length v.cores → (u w : ℕ) → Leads v s X u → Leads v s X w
        → u ≡ w }
{}

/// A grammar has one fault at most, besides want of memory.
pub fn one_fault()
    ensures { (g : Grammar) (e f : TableFault) → IsTableFault g e → IsTableFault g f → e ≢ fault.NoMemory
        → f ≢ fault.NoMemory → e ≡ f }
{}

/// A grammar that has tables and not too many states has no fault.
pub fn no_fault()
    ensures { (v : View) → IsTables v → (TooMany v.grammar → ⊥) → (e : TableFault) → IsTableFault v.grammar e
        → e ≢ fault.NoMemory → ⊥ }
{}
