//! The record of declarations.
ghost use Rattle.std.specs.Prelude.{◌≡◌, List, IfOk};
ghost use Rattle.sg_ast.specs.Declarations.{Decl as Tree};
ghost use Rattle.sg_ast.specs.View.{trees_of};
ghost use Rattle.sg_record.specs.Record.{record_of, recorded_exprs};
ghost use Rattle.sg_record.specs.RecordView.{ArePartsOf};
ghost use Rattle.sg_typing.specs.Bodies.{patterns_in};
ghost use Rattle.sg_typing.specs.Checked.{typed_of};

use crate::bodies::{bodies, exprs, with_bodies};
use crate::entries::entries;
use crate::levels::levels;
use crate::operators::with_schemes;
use crate::productions::productions;
use crate::transforms::transforms;
use sg_ast::decl::Decl;
use sg_kinds::expr::Expr;
use sg_kinds::ids::ExprId;
use sg_kinds::lexeme::Lexeme;
use sg_kinds::memory::NoMemory;
use sg_kinds::pattern::Pattern;
use sg_kinds::row::Row;
use sg_kinds::spec::{Entry, LevelLine, Production, Rule, Scheme, Spec, Transform};
use sg_kinds::views::Views;
use sg_names::groups::Groups;
use sg_names::names::Names;
use sg_names::table::Table;
use sg_typing::Typed;
use sg_views::schemes::schemes;
use sg_views::views::views;
use std::alloc::Global;

/// What declarations give to the record besides names, types and rules.
#[derive(Drop)]
pub(crate) struct Given {
    schemes: Groups<Scheme>,
    views: Views,
    transforms: Vec<Transform>,
    productions: Vec<Production>,
    entries: Vec<Entry>,
    levels: Vec<LevelLine>,
    bodies: Vec<ExprId>,
}

fn parts(
    alloc: Global,
    decls: &[Decl],
    names: &Names,
    patterns: Vec<Pattern>,
) -> Result<Given, NoMemory>
    requires { patterns.items ≡ patterns_in names.now (trees_of decls.now) }
    ensures { IfOk result (ArePartsOf names.now (trees_of decls.now)) }
{
    let transforms = transforms(alloc, decls, names, patterns)?;
    let schemes = schemes(alloc, decls, names, None)?;
    let views = views(alloc, decls, names)?;
    let productions = productions(alloc, decls, names)?;
    let entries = entries(alloc, decls, names)?;
    let levels = levels(alloc, decls)?;
    let bodies = bodies(alloc, decls)?;
    Ok(Given {
        schemes,
        views,
        transforms,
        productions,
        entries,
        levels,
        bodies,
    })
}

fn assembled(
    alloc: Global,
    table: Table,
    exprs: Vec<Expr>,
    parts: Given,
    rules: Row<Rule>,
    lexemes: Row<Lexeme>,
) -> Result<Spec, NoMemory>
    ensures { (ds : List Tree) → ArePartsOf table ds parts
        → exprs.items ≡ recorded_exprs table ds
        → IfOk result (λ spec. spec ≡ record_of table ds rules lexemes) }
{
    let functions = with_bodies(alloc, table.functions.into_vec(), &parts.bodies)?;
    let ops = with_schemes(alloc, table.ops.into_vec(), parts.schemes);
    Ok(Spec {
        phyla: table.phyla,
        ops: Row::new(ops),
        exprs: Row::new(exprs),
        rules,
        functions: Row::new(functions),
        transforms: Row::new(parts.transforms),
        lexemes,
        productions: Row::new(parts.productions),
        entries: Row::new(parts.entries),
        levels: Row::new(parts.levels),
        views: parts.views,
        root: table.root,
    })
}

/// The record: `names` and `typed` are those of the declarations, which stay as they are; rules and lexemes are moved.
pub fn record(
    alloc: Global,
    decls: &[Decl],
    names: Names,
    typed: Typed,
    rules: Row<Rule>,
    lexemes: Row<Lexeme>,
) -> Result<Spec, NoMemory>
    requires { typed ≡ typed_of names (trees_of decls.now) }
    ensures { IfOk result (λ spec. spec ≡ record_of names (trees_of decls.now) rules lexemes) }
{
    let parts = parts(alloc, decls, &names, typed.patterns.into_vec())?;
    let exprs = exprs(alloc, typed.exprs.into_vec())?;
    assembled(alloc, names.into_table(), exprs, parts, rules, lexemes)
}
