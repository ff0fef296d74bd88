// The term of a file.
ghost use Rattle.std.specs.Prelude.{◌≡◌, ⊤, MatchOption, IfOk};
ghost use Rattle.sg_kinds.specs.Fits.{Fits};
ghost use Rattle.sg_kinds.specs.Plain.{plain};
ghost use Rattle.sg_kinds.specs.Sound.{IsSmall, IsSound};
ghost use Rattle.sg_saved.specs.Read.{Opened, IsOpened};
ghost use Rattle.sg_commands.specs.Turn.{Reads, AreReads};
ghost use Rattle.sg_report.specs.Answers.{answered_of};
ghost use Rattle.sg_report.specs.Found.{Opens, AreOpens, is_saved, from_saved, text_read, value_read, limited, term_read};

use crate::answers::{ReportFault, of_entry, of_opening};
use sg_eval::Evaluator;
use sg_exchanges::within;
use sg_input::{enter, entry_of};
use sg_kinds::limits::FILE_BYTES;
use sg_kinds::spec::Spec;
use sg_kinds::term::Term;
use sg_kinds::value::Value;
use sg_load::Loaded;
use sg_saved::read;
use std::alloc::Global;

// whether it begins as a saved file
fn is_saved(file: &[u8]) -> bool
    ensures { result ≡ is_saved file.now }
{
    file.starts_with(b"SGT1\n")
}

// the value of a saved file
fn saved_value(alloc: Global, spec: &Spec, file: &[u8]) -> Result<Value, ReportFault>
    requires { IsSound spec.now }
    ensures told { (a : Opened) → IsOpened spec.now file.now a
        → MatchOption (answered_of result) ⊤ (λ x. x ≡ from_saved a) }
    ensures fits { IfOk result (λ v. Fits spec.now (plain spec.now v spec.now.root) spec.now.root) }
{
    match read(alloc, spec, file) {
        Ok(v) => Ok(v),
        Err(fault) => Err(of_opening(fault)),
    }
}

// the value of a text, by the entry of the root phylum
fn text_value(
    alloc: Global,
    loaded: &Loaded,
    ev: &Evaluator,
    file: &[u8],
) -> Result<Value, ReportFault>
    requires { ev.now ≡ loaded.now.spec }
    ensures told { (reads : Reads) (opens : Opens) → AreReads loaded.now.spec reads
        → MatchOption (answered_of result) ⊤ (λ x. x ≡ text_read loaded.now.spec reads opens file.now) }
    ensures fits { IfOk result (λ v. Fits loaded.now.spec (plain loaded.now.spec v loaded.now.spec.root)
        loaded.now.spec.root) }
{
    loaded.facts();
    let spec = &loaded.spec;
    let Some(entry) = entry_of(spec, spec.root) else {
        return Err(ReportFault::NoEntry);
    };
    match enter(alloc, &loaded.lexemes, &loaded.tables, ev, entry, file) {
        Ok(v) => Ok(v),
        Err(fault) => Err(of_entry(fault)),
    }
}

// the value of a file
fn value_of(
    alloc: Global,
    loaded: &Loaded,
    ev: &Evaluator,
    file: &[u8],
) -> Result<Value, ReportFault>
    requires { ev.now ≡ loaded.now.spec }
    ensures told { (reads : Reads) (opens : Opens) → AreReads loaded.now.spec reads
        → AreOpens loaded.now.spec opens
        → MatchOption (answered_of result) ⊤ (λ x. x ≡ value_read loaded.now.spec reads opens file.now) }
    ensures fits { IfOk result (λ v. Fits loaded.now.spec (plain loaded.now.spec v loaded.now.spec.root)
        loaded.now.spec.root) }
{
    loaded.facts();
    if file.len() > FILE_BYTES {
        return Err(ReportFault::Long);
    }
    if is_saved(file) {
        saved_value(alloc, &loaded.spec, file)
    } else {
        text_value(alloc, loaded, ev, file)
    }
}

// a term in the limits
fn limited(t: Term) -> Result<Term, ReportFault>
    ensures is { result ≡ limited t }
    ensures small { IfOk result IsSmall }
    ensures same { IfOk result (λ x. x ≡ t) }
{
    match within(&t) {
        Ok(_) => Ok(t),
        Err(_) => Err(ReportFault::Size),
    }
}

/// The term of a file. It fits the root phylum, and is in the limits.
pub fn term_of(
    alloc: Global,
    loaded: &Loaded,
    ev: &Evaluator,
    file: &[u8],
) -> Result<Term, ReportFault>
    requires { ev.now ≡ loaded.now.spec }
    ensures told { (reads : Reads) (opens : Opens) → AreReads loaded.now.spec reads
        → AreOpens loaded.now.spec opens
        → MatchOption (answered_of result) ⊤ (λ x. x ≡ term_read loaded.now.spec reads opens file.now) }
    ensures fits { IfOk result (λ t. Fits loaded.now.spec t loaded.now.spec.root) }
    ensures small { IfOk result IsSmall }
{
    let v = value_of(alloc, loaded, ev, file)?;
    let t = loaded.spec.plain(alloc, &v, loaded.spec.root)?;
    limited(t)
}
