//! The loading of a specification.
ghost use Rattle.std.specs.Prelude.{◌≡◌, ◌≢◌, ◌<◌, ◌≤◌, ◌^◌, ◌++◌, Some, None, IfOk, IfErr, OnOk, [], All, length};
ghost use Rattle.sg_kinds.specs.Matches.{Matches};
ghost use Rattle.sg_kinds.specs.Sound.{HasLexemes, IsSound};
ghost use Rattle.sg_kinds.specs.Specification.{rules_of};
ghost use Rattle.sg_kinds.specs.ValidPlans.{AreValid};
ghost use Rattle.sg_ast.specs.View.{trees_of};
ghost use Rattle.sg_grammar.specs.Numbered.{grammar_of};
ghost use Rattle.sg_names.specs.Names as written_names;
ghost use Rattle.sg_remote.specs.Handing as hands;
ghost use Rattle.sg_remote.specs.Lists.{lists};
ghost use Rattle.sg_remote.specs.Longer.{names_of};
ghost use Rattle.sg_resolve.specs.Resolved.{resolve_fault};
ghost use Rattle.sg_typing.specs.Checked.{typed_of};
ghost use Rattle.sg_ast.specs.Written.{HaveWritten};
ghost use Rattle.sg_ast.specs.FirstFault.{or_else};
ghost use Rattle.sg_schemes.specs.Places.{scheme_kids as kids_row};
ghost use Rattle.sg_schemes.specs.Strings.{scheme_text as text_row};
ghost use Rattle.sg_load.specs.FirstFault as rows;
ghost use Rattle.sg_load.specs.FirstFault.{HasNoFaultOf, HaveNoFault, early_phases, equation_phases, late_phases, phases, shown_phases};
ghost use Rattle.sg_load.specs.FirstFault.Phase.{Tables as TablesPhase, Order as OrderPhase};
ghost use Rattle.sg_patterns.specs.LexemesOf.{AreLexemesOf};
ghost use Rattle.sg_load.specs.Only.{AreTheLexemes, IsTheFault, IsTheFaultOf, IsTheJudgement, IsTheSpec, IsTheVerdict};
ghost use Rattle.sg_load.specs.SpecOf.{equations_of};
ghost use Rattle.sg_load.specs.Verdict.Verdict.{Refused, Accepted};

use crate::loaded::Loaded;
use crate::parts::{join, split};
use crate::patterns::lexemes;
use crate::trees;
use sg_ast::decl::Decl;
use sg_equations::rules;
use sg_grammar::make;
use sg_kinds::fault::SpecFault;
use sg_kinds::ids::ExprId;
use sg_kinds::lexeme::Lexeme;
use sg_kinds::memory::NoMemory;
use sg_kinds::plans::Plans;
use sg_kinds::row::Row;
use sg_kinds::spec::{Rule, Spec};
use sg_lalr::{Tables, tables};
use sg_names::callables::number;
use sg_names::names::Names;
use sg_orders::order;
use sg_patterns::Lexemes;
use sg_record::entries::{entry_twice, entry_type};
use sg_record::record::record;
use sg_remote::{handing, hide, no_enclosing};
use sg_reports::orders::order_fault;
use sg_reports::tables::table_fault;
use sg_resolve::resolve;
use sg_schemes::places::scheme_kids;
use sg_schemes::shown::no_scheme;
use sg_schemes::strings::scheme_text;
use sg_typing::{Typed, check};
use std::alloc::Global;

/// The fault of these, if there is one, as an error.
fn refused(fault: Option<SpecFault>) -> Result<(), SpecFault>
    ensures none { OnOk result (fault ≡ None) }
    ensures some { IfErr result (λ f. fault ≡ Some f) }
{
    match fault {
        Some(fault) => Err(fault),
        None => Ok(()),
    }
}

/// The first fault of the strings of schemes, after that of their places.
fn later_schemes_fault(
    alloc: Global,
    decls: &[Decl],
    names: &Names,
) -> Result<Option<SpecFault>, NoMemory>
    ensures { IfOk result (λ f. f ≡ or_else (kids_row names.now (trees_of decls.now)) (text_row (trees_of decls.now))) }
{
    match scheme_kids(alloc, names, decls)? {
        Some(fault) => Ok(Some(fault)),
        None => Ok(scheme_text(decls)),
    }
}

/// The first fault of schemes: of missing ones, then of their places, then of their strings.
fn schemes_fault(
    alloc: Global,
    decls: &[Decl],
    names: &Names,
) -> Result<Option<SpecFault>, NoMemory>
    requires names { names.now ≡ names_of (trees_of decls.now) }
    ensures { IfOk result (rows.IsSchemesFault (trees_of decls.now)) }
{
    match no_scheme(alloc, names, decls)? {
        Some(fault) => Ok(Some(fault)),
        None => later_schemes_fault(alloc, decls, names),
    }
}

/// The first fault of entries: of second ones, then of their types.
fn entries_fault(
    alloc: Global,
    decls: &[Decl],
    names: &Names,
) -> Result<Option<SpecFault>, NoMemory>
    requires names { names.now ≡ names_of (trees_of decls.now) }
    ensures { IfOk result (λ f. f ≡ rows.entries_fault (trees_of decls.now)) }
{
    match entry_twice(alloc, decls, names)? {
        Some(fault) => Ok(Some(fault)),
        None => entry_type(alloc, decls, names),
    }
}

/// The tables of a record's input grammar.
fn judge_tables(alloc: Global, decls: &[Decl], spec: &Spec) -> Result<Tables, SpecFault>
    requires the { IsTheSpec (trees_of decls.now) spec.now }
    ensures tables { IfOk result (λ t. t.grammar ≡ grammar_of spec.now) }
    ensures none { OnOk result (HasNoFaultOf (trees_of decls.now) TablesPhase) }
    ensures fault { IfErr result (λ f. f ≢ SpecFault.NoMemory → IsTheFaultOf (trees_of decls.now) TablesPhase f) }
{
    let grammar = make(alloc, spec)?;
    match tables(alloc, &grammar) {
        Ok(found) => {
            found.sound();
            Ok(found)
        }
        Err(fault) => Err(table_fault(alloc, decls, spec, &grammar, fault)),
    }
}

/// A record with plans of evaluation.
fn judge_order(alloc: Global, decls: &[Decl], spec: Spec) -> Result<(Spec, Plans), SpecFault>
    requires the { IsTheSpec (trees_of decls.now) spec }
    requires sound { IsSound spec }
    ensures same { IfOk result (λ x. x.0 ≡ spec) }
    ensures plans { IfOk result (λ x. AreValid (rules_of spec) x.1) }
    ensures none { OnOk result (HasNoFaultOf (trees_of decls.now) OrderPhase) }
    ensures fault { IfErr result (λ f. f ≢ SpecFault.NoMemory → IsTheFaultOf (trees_of decls.now) OrderPhase f) }
{
    let (rules, rest) = split(spec);
    let found = order(alloc, &rules);
    let spec = join(rules, rest);
    match found {
        Ok(plans) => Ok((spec, plans)),
        Err(fault) => Err(order_fault(alloc, decls, &spec, fault)),
    }
}

/// What is kept of a record, or the fault of its input grammar, or else of its order of evaluation.
pub fn complete(alloc: Global, decls: &[Decl], spec: Spec) -> Result<Loaded, SpecFault>
    requires the { IsTheSpec (trees_of decls.now) spec }
    requires sound { IsSound spec }
    ensures same { IfOk result (λ l. l.spec ≡ spec) }
    ensures plans { IfOk result (λ l. AreValid (rules_of l.spec) l.plans) }
    ensures tables { IfOk result (λ l. l.tables.grammar ≡ grammar_of l.spec) }
    ensures lexemes { IfOk result (λ l. AreLexemesOf l.spec l.lexemes) }
    ensures none { OnOk result (HaveNoFault (trees_of decls.now) late_phases) }
    ensures fault { IfErr result (λ f. f ≢ SpecFault.NoMemory → IsTheFault (trees_of decls.now) late_phases f) }
{
    let tables = judge_tables(alloc, decls, &spec)?;
    let lexemes = Lexemes::new(alloc, &spec)?;
    let (spec, plans) = judge_order(alloc, decls, spec)?;
    Ok(Loaded {
        spec,
        plans,
        tables,
        lexemes,
    })
}

/// The patterns of the lexeme phyla, or the first fault of schemes, lexemes and entries.
fn shown(alloc: Global, decls: &[Decl], names: &Names) -> Result<Row<Lexeme>, SpecFault>
    requires names { names.now ≡ names_of (trees_of decls.now) }
    ensures the { IfOk result (AreTheLexemes (trees_of decls.now)) }
    ensures some { IfOk result (λ ps. All (λ p. Matches p [] → ⊥) ps) }
    ensures none { OnOk result (HaveNoFault (trees_of decls.now) shown_phases) }
    ensures fault { IfErr result (λ f. f ≢ SpecFault.NoMemory
        → IsTheFault (trees_of decls.now) (shown_phases ++ late_phases) f) }
{
    refused(schemes_fault(alloc, decls, names)?)?;
    let lexemes = lexemes(alloc, decls)?;
    refused(entries_fault(alloc, decls, names)?)?;
    Ok(lexemes)
}

/// The record of declarations with these names, types and rules, or the first fault of their schemes, lexemes and
/// entries.
fn recorded(
    alloc: Global,
    decls: &[Decl],
    names: Names,
    typed: Typed,
    rules: Row<Rule>,
) -> Result<Spec, SpecFault>
    requires names { names ≡ names_of (trees_of decls.now) }
    requires typed { typed ≡ typed_of names (trees_of decls.now) }
    requires rules { rules ≡ equations_of (trees_of decls.now) }
    ensures the { IfOk result (IsTheSpec (trees_of decls.now)) }
    ensures lexemes { IfOk result HasLexemes }
    ensures none { OnOk result (HaveNoFault (trees_of decls.now) shown_phases) }
    ensures fault { IfErr result (λ f. f ≢ SpecFault.NoMemory
        → IsTheFault (trees_of decls.now) (shown_phases ++ late_phases) f) }
{
    let lexemes = shown(alloc, decls, &names)?;
    Ok(record(alloc, decls, names, typed, rules, lexemes)?)
}

/// The names of declarations, with the attributes that hand those of enclosing nodes down, or the first fault of names
/// and shapes. More lists of references to enclosing nodes than a text has bytes are want of memory.
fn named(alloc: Global, decls: &[Decl]) -> Result<Names, SpecFault>
    ensures value { IfOk result (λ n. n ≡ names_of (trees_of decls.now)) }
    ensures few { OnOk result (length (lists (written_names.names_of (trees_of decls.now)) (trees_of decls.now))
        ≤ 1048576) }
    ensures none { OnOk result (resolve_fault (trees_of decls.now) ≡ None) }
    ensures fault { IfErr result (λ f. f ≢ SpecFault.NoMemory → resolve_fault (trees_of decls.now) ≡ Some f) }
{
    let names = resolve(alloc, decls)?;
    Ok(hide(alloc, decls, names)?)
}

/// These rules, and behind them those that hand attributes of enclosing nodes down, whose expression stands behind all
/// others.
fn with_handing(
    alloc: Global,
    names: &Names,
    typed: &Typed,
    written: Row<Rule>,
) -> Result<Row<Rule>, NoMemory>
    ensures rules { IfOk result (λ rs. rs ≡ written ++ hands.handing names.now (length typed.now.exprs)) }
    ensures few { IfOk result (λ rs. length rs < 2 ^ 32) }
{
    let expr = ExprId {
        number: number(typed.exprs.len())?,
    };
    let mut rules = written.into_vec();
    handing(alloc, names, expr, &mut rules)?;
    Ok(Row::new(rules))
}

/// The rules of declarations, or the first fault of their equations: of what they define, then of references to
/// enclosing nodes.
fn handed(
    alloc: Global,
    decls: &[Decl],
    names: &Names,
    typed: &Typed,
) -> Result<Row<Rule>, SpecFault>
    requires names { names.now ≡ names_of (trees_of decls.now) }
    requires typed { typed.now ≡ typed_of names.now (trees_of decls.now) }
    ensures rules { IfOk result (λ rs. rs ≡ equations_of (trees_of decls.now)) }
    ensures few { IfOk result (λ rs. length rs < 2 ^ 32) }
    ensures none { OnOk result (HaveNoFault (trees_of decls.now) equation_phases) }
    ensures fault { IfErr result (λ f. f ≢ SpecFault.NoMemory
        → IsTheFault (trees_of decls.now) (equation_phases ++ (shown_phases ++ late_phases)) f) }
{
    let written = rules(alloc, decls, names, typed)?;
    let bare = no_enclosing(alloc, decls, names)?;
    refused(bare)?;
    Ok(with_handing(alloc, names, typed, written)?)
}

/// The record of declarations, or their first fault; but the faults of the record's input grammar and of its order of
/// evaluation, which `complete` finds.
pub fn assembled(alloc: Global, decls: &[Decl]) -> Result<Spec, SpecFault>
    requires written { HaveWritten (trees_of decls.now) }
    ensures the { IfOk result (IsTheSpec (trees_of decls.now)) }
    ensures sound { IfOk result IsSound }
    ensures none { OnOk result (HaveNoFault (trees_of decls.now) (early_phases ++ shown_phases)) }
    ensures fault { IfErr result (λ f. f ≢ SpecFault.NoMemory → IsTheFault (trees_of decls.now) phases f) }
{
    let names = named(alloc, decls)?;
    let typed = check(alloc, decls, &names)?;
    let rules = handed(alloc, decls, &names, &typed)?;
    recorded(alloc, decls, names, typed, rules)
}

/// What is kept of declarations, or their first fault.
fn judge(alloc: Global, decls: &[Decl]) -> Result<Loaded, SpecFault>
    requires written { HaveWritten (trees_of decls.now) }
    ensures accepted { IfOk result (λ l. IsTheJudgement (trees_of decls.now) (Accepted l.spec)) }
    ensures sound { IfOk result (λ l. IsSound l.spec) }
    ensures plans { IfOk result (λ l. AreValid (rules_of l.spec) l.plans) }
    ensures tables { IfOk result (λ l. l.tables.grammar ≡ grammar_of l.spec) }
    ensures lexemes { IfOk result (λ l. AreLexemesOf l.spec l.lexemes) }
    ensures refused { IfErr result (λ f. f ≢ SpecFault.NoMemory → IsTheJudgement (trees_of decls.now) (Refused f)) }
{
    let spec = assembled(alloc, decls)?;
    complete(alloc, decls, spec)
}

/// Loads the specification of a text: its record with what belongs to it, or its first static fault. There is no other
/// verdict on the text.
pub fn load(alloc: Global, bytes: &[u8]) -> Result<Loaded, SpecFault>
    ensures accepted { IfOk result (λ l. IsTheVerdict bytes.now (Accepted l.spec)) }
    ensures sound { IfOk result (λ l. IsSound l.spec) }
    ensures plans { IfOk result (λ l. AreValid (rules_of l.spec) l.plans) }
    ensures tables { IfOk result (λ l. l.tables.grammar ≡ grammar_of l.spec) }
    ensures lexemes { IfOk result (λ l. AreLexemesOf l.spec l.lexemes) }
    ensures refused { IfErr result (λ f. f ≢ SpecFault.NoMemory → IsTheVerdict bytes.now (Refused f)) }
{
    let decls = trees::read(alloc, bytes)?;
    judge(alloc, &decls)
}
