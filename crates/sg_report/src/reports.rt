// The report of a file.
ghost use Rattle.std.specs.Prelude.{◌≡◌, ◌≢◌, ◌+◌, ◌<◌, ◌≤◌, ⊤, length, IfErr, IfOk, MatchOption, Ok, OnErr, OnOk};
ghost use Rattle.sg_kinds.specs.Fits.{Fits};
ghost use Rattle.sg_kinds.specs.Sound.{IsSmall};
ghost use Rattle.sg_kinds.specs.Specification.{attrs_of};
ghost use Rattle.sg_kinds.specs.Terms.{Term as ATerm};
ghost use Rattle.sg_eval.specs.Journal.{now_of, total_of};
ghost use Rattle.sg_commands.specs.Turn.{Reads, AreReads};
ghost use Rattle.sg_report.specs.Answers.{answered_of, evaluated_by, EachNoted};
ghost use Rattle.sg_report.specs.Found.{Opens, AreOpens, term_read};
ghost use Rattle.sg_report.specs.Lines.{equations, report_on};
ghost use Rattle.sg_report.specs.Reports.{report_of, report_by};

use crate::answers::{Report, ReportFault};
use crate::attrs::{Named, attr_in};
use crate::found::term_of;
use crate::lines::report_on;
use sg_eval::{Evaluator, Journal};
use sg_exchanges::begin;
use sg_kinds::memory::NoMemory;
use sg_kinds::term::Term;
use sg_load::Loaded;
use std::alloc::Global;

// the report on a term that fits the root phylum and is in the limits, after its equations are evaluated
fn told(
    alloc: Global,
    loaded: &Loaded,
    ev: &Evaluator,
    t: &Term,
    a: &Named,
    journal: &mut Journal,
) -> Result<Report, NoMemory>
    requires same { ev.now ≡ loaded.now.spec }
    requires fits { Fits loaded.now.spec t.now loaded.now.spec.root }
    requires small { IsSmall t.now }
    requires slot { a.now.slot < length (attrs_of loaded.now.spec.phyla a.now.phylum) }
    ensures told { IfOk result (λ r. r ≡ report_on loaded.now.spec t.now a.now) }
    ensures noted { OnOk result (EachNoted loaded.now.spec t.now (now_of journal.old) (now_of journal.new)) }
    ensures evaluated { IfOk result (λ r. length (now_of journal.new) ≡ length (now_of journal.old) + r.evaluated) }
    ensures least { length (now_of journal.old) ≤ length (now_of journal.new) }
    ensures most { length (now_of journal.new) ≤ length (now_of journal.old) + equations loaded.now.spec t.now }
    ensures total { total_of journal.new ≡ total_of journal.old }
{
    loaded.facts();
    let before = journal.now().len();
    let fresh = begin(alloc, &loaded.spec, t, 1, &loaded.plans, ev, journal)?;
    let evaluated = (journal.now().len() - before) as u64;
    report_on(alloc, &fresh.terms, fresh.root, a, evaluated)
}

// the report on an attribute that is there
fn report_of(
    alloc: Global,
    loaded: &Loaded,
    file: &[u8],
    a: &Named,
    journal: &mut Journal,
) -> Result<Report, ReportFault>
    requires slot { a.now.slot < length (attrs_of loaded.now.spec.phyla a.now.phylum) }
    ensures told { (reads : Reads) (opens : Opens) → AreReads loaded.now.spec reads
        → AreOpens loaded.now.spec opens → MatchOption (answered_of result) ⊤
        (λ x. x ≡ report_of loaded.now.spec reads opens a.now file.now) }
    ensures noted { (reads : Reads) (opens : Opens) → AreReads loaded.now.spec reads
        → AreOpens loaded.now.spec opens
        → OnOk result ((t : ATerm) × (term_read loaded.now.spec reads opens file.now ≡ Ok t)
        × EachNoted loaded.now.spec t (now_of journal.old) (now_of journal.new)) }
    ensures evaluated { IfOk result (λ r. length (now_of journal.new) ≡ length (now_of journal.old) + r.evaluated) }
    ensures quiet { IfErr result (λ f. f ≢ ReportFault.NoMemory → now_of journal.new ≡ now_of journal.old) }
    ensures least { length (now_of journal.old) ≤ length (now_of journal.new) }
    ensures most { (reads : Reads) (opens : Opens) → AreReads loaded.now.spec reads
        → AreOpens loaded.now.spec opens
        → OnErr result (length (now_of journal.new) ≤ length (now_of journal.old)
        + evaluated_by (report_of loaded.now.spec reads opens a.now file.now)) }
    ensures total { total_of journal.new ≡ total_of journal.old }
{
    let ev = Evaluator::new(alloc, &loaded.spec)?;
    let t = term_of(alloc, loaded, &ev, file)?;
    let report = told(alloc, loaded, &ev, &t, a, journal)?;
    Ok(report)
}

/// The values of an attribute of all nodes of a file, each with its path, in preorder, or the first refusal: the
/// attribute is looked for, then the file's length is tested, it is read, and its equations are evaluated. A file that
/// begins with a line `SGT1` is a saved file, and any other a text of the root phylum's entry. The time is in
/// proportion to the file, to the term and its equations, and to the lines.
pub fn report(
    alloc: Global,
    loaded: &Loaded,
    file: &[u8],
    phylum: &[u8],
    name: &[u8],
    journal: &mut Journal,
) -> Result<Report, ReportFault>
    ensures told { (reads : Reads) (opens : Opens) → AreReads loaded.now.spec reads
        → AreOpens loaded.now.spec opens → MatchOption (answered_of result) ⊤
        (λ x. x ≡ report_by loaded.now.spec reads opens phylum.now name.now file.now) }

    // What is evaluated: all equations of the term, each once, or nothing; without memory perhaps some.
    ensures noted { (reads : Reads) (opens : Opens) → AreReads loaded.now.spec reads
        → AreOpens loaded.now.spec opens
        → OnOk result ((t : ATerm) × (term_read loaded.now.spec reads opens file.now ≡ Ok t)
        × EachNoted loaded.now.spec t (now_of journal.old) (now_of journal.new)) }
    ensures evaluated { IfOk result (λ r. length (now_of journal.new) ≡ length (now_of journal.old) + r.evaluated) }
    ensures quiet { IfErr result (λ f. f ≢ ReportFault.NoMemory → now_of journal.new ≡ now_of journal.old) }
    ensures least { length (now_of journal.old) ≤ length (now_of journal.new) }
    ensures most { (reads : Reads) (opens : Opens) → AreReads loaded.now.spec reads
        → AreOpens loaded.now.spec opens
        → OnErr result (length (now_of journal.new) ≤ length (now_of journal.old)
        + evaluated_by (report_by loaded.now.spec reads opens phylum.now name.now file.now)) }
    ensures total { total_of journal.new ≡ total_of journal.old }
{
    loaded.facts();
    match attr_in(&loaded.spec, phylum, name) {
        Some(a) => report_of(alloc, loaded, file, &a, journal),
        None => Err(ReportFault::NoAttribute),
    }
}
