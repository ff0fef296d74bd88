//! A record in two parts: what its attribute equations need, and the rest.
ghost use Rattle.std.specs.Prelude.{◌≡◌};
ghost use Rattle.sg_kinds.specs.Specification.{rules_of};
ghost use Rattle.sg_load.specs.PartsOf.{rest_of, joined};

use sg_kinds::ids::PhylumId;
use sg_kinds::lexeme::Lexeme;
use sg_kinds::row::Row;
use sg_kinds::spec::{Entry, Function, LevelLine, Production, Rules, Spec, Transform};
use sg_kinds::views::Views;

/// What a record has besides its attribute equations.
#[derive(Drop)]
pub struct Rest {
    pub functions: Row<Function>,
    pub transforms: Row<Transform>,
    pub lexemes: Row<Lexeme>,
    pub productions: Row<Production>,
    pub entries: Row<Entry>,
    pub levels: Row<LevelLine>,
    pub views: Views,
    pub root: PhylumId,
}

/// The two parts of a record.
pub fn split(spec: Spec) -> (Rules, Rest)
    ensures rules { result.0 ≡ rules_of spec }
    ensures rest { result.1 ≡ rest_of spec }
{
    let Spec {
        phyla,
        ops,
        exprs,
        rules,
        functions,
        transforms,
        lexemes,
        productions,
        entries,
        levels,
        views,
        root,
    } = spec;
    let rules = Rules {
        phyla,
        ops,
        exprs,
        rules,
    };
    let rest = Rest {
        functions,
        transforms,
        lexemes,
        productions,
        entries,
        levels,
        views,
        root,
    };
    (rules, rest)
}

/// The record of two parts.
pub fn join(rules: Rules, rest: Rest) -> Spec
    ensures { result ≡ joined rules rest }
{
    Spec {
        phyla: rules.phyla,
        ops: rules.ops,
        exprs: rules.exprs,
        rules: rules.rules,
        functions: rest.functions,
        transforms: rest.transforms,
        lexemes: rest.lexemes,
        productions: rest.productions,
        entries: rest.entries,
        levels: rest.levels,
        views: rest.views,
        root: rest.root,
    }
}
