//! Laws of commands, each as the contract of a function without code.
ghost use Rattle.std.specs.Prelude.{◌≡◌};
ghost use Rattle.sg_kinds.specs.Sound.{IsSound};
ghost use Rattle.sg_kinds.specs.Terms.{Term};
ghost use Rattle.sg_kinds.specs.declared.spec.Spec.{Spec};
ghost use Rattle.sg_patterns.specs.LexemesOf.{AreLexemesOf};
ghost use Rattle.sg_patterns.specs.declared.lexemes.Lexemes.{Lexemes};
ghost use Rattle.sg_grammar.specs.Numbered.{grammar_of};
ghost use Rattle.sg_lalr.specs.Tables.{Decided, IsTables, View};
ghost use Rattle.sg_states.specs.States.{begun};
ghost use Rattle.sg_commands.specs.Turn.{AreReads, Reads};
ghost use Rattle.sg_commands.specs.Typing.{IsTyping};

/// Over a sound specification with tables there is a way in which its entries read texts right.
pub fn texts_are_read()
    ensures { (spec : Spec) → IsSound spec → (l : Lexemes) → AreLexemesOf spec l →
        (v : View) → v.grammar ≡ grammar_of spec → IsTables v → Decided v → (reads : Reads) × AreReads spec reads }
{}

/// In a new buffer nothing is being typed.
#[tactic(auto, using(crate::proofs::Keeping::begun_typing))]
pub fn buffers_begin()
    ensures { (spec : Spec) (t : Term) → IsTyping spec (begun t) }
{}
