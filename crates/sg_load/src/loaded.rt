//! A specification that was accepted.
ghost use Rattle.std.specs.Prelude.{◌≡◌};
ghost use Rattle.sg_kinds.specs.Sound.{IsSound};
ghost use Rattle.sg_kinds.specs.Specification.{rules_of};
ghost use Rattle.sg_kinds.specs.ValidPlans.{AreValid};
ghost use Rattle.sg_grammar.specs.Numbered.{grammar_of};
ghost use Rattle.sg_patterns.specs.LexemesOf.{AreLexemesOf};

use sg_kinds::plans::Plans;
use sg_kinds::spec::Spec;
use sg_lalr::Tables;
use sg_patterns::Lexemes;
use std::marker::Model;

/// A specification without a static fault: its record, its plans of evaluation, the tables of its input grammar, and
/// the lexemes by which texts are scanned. The type keeps that the record is sound, and that the rest is of this
/// record.
#[derive(Drop)]
pub struct Loaded {
    pub spec: Spec,
    pub plans: Plans,
    pub tables: Tables,
    pub lexemes: Lexemes,
}

impl Model for Loaded {
    ghost use Rattle.sg_kinds.specs.contracts.plans.Plans as plans_type;
    ghost use Rattle.sg_kinds.specs.contracts.spec.Spec as spec_type;
    ghost use Rattle.sg_lalr.specs.contracts.table.Tables as tables_type;
    ghost use Rattle.sg_patterns.specs.contracts.lexemes.Lexemes as lexemes_type;
    ghost use Rattle.sg_load.specs.Loaded.{Contents, contents, contents_code, BelongTogether};

    ghost Value = { Contents };

    ghost coded = { contents_code spec_type.the_row.coded plans_type.the_row.coded tables_type.the_row.coded
        lexemes_type.the_row.coded };

    ghost view = { λ l. contents l.spec l.plans l.tables l.lexemes };

    ghost invariant = { λ l. BelongTogether (contents l.spec l.plans l.tables l.lexemes) };
}

impl Loaded {
    /// The record is sound, and the rest is of this record. This does nothing and tells it.
    pub fn facts(&self)
        ensures sound { IsSound self.now.spec }
        ensures plans { AreValid (rules_of self.now.spec) self.now.plans }
        ensures tables { self.now.tables.grammar ≡ grammar_of self.now.spec }
        ensures lexemes { AreLexemesOf self.now.spec self.now.lexemes }
    {
        let _ = &self.spec;
    }
}
