// What is told of a specification that is accepted.
ghost use Rattle.std.specs.Prelude.{◌≡◌, IfOk, Ok};
ghost use Rattle.sg_text.specs.Tokens.{tokens_of};
ghost use Rattle.sg_explain.specs.Answers.{Accepts, AcceptsWith, TellsPlan, TellsWanted};

use sg_kinds::limits::TEXT_BYTES;
use sg_kinds::memory::NoMemory;
use sg_kinds::spec::Spec;
use sg_load::{Loaded, declarations};
use sg_notes::write_notes;
use sg_plan_text::write_plan;
use sg_text::{Token, lex};
use std::alloc::Global;

// The tokens of a text that is accepted, which is not too long and has tokens.
fn tokens(alloc: Global, bytes: &[u8]) -> Result<Vec<Token>, NoMemory>
    ensures { IfOk result (λ v. tokens_of bytes.now ≡ Ok v.items) }
{
    if bytes.len() > TEXT_BYTES {
        return Err(NoMemory);
    }
    match lex(alloc, bytes) {
        Ok(tokens) => Ok(tokens),
        Err(_) => Err(NoMemory),
    }
}

// What is told of a specification that is accepted: `ok`, and what of it is of no use, as lines.
#[tactic(auto, using(crate::proofs::Explained::accepts))]
fn told(alloc: Global, file: &[u8], bytes: &[u8], spec: &Spec) -> Result<Vec<u8>, NoMemory>
    ensures { IfOk result (λ v. Accepts file.now bytes.now spec.now v.items) }
{
    let tokens = tokens(alloc, bytes)?;
    let Ok(decls) = declarations(alloc, bytes) else {
        return Err(NoMemory);
    };
    let mut out = Vec::from_slice(alloc, b"ok\n")?;
    write_notes(alloc, &mut out, file, bytes, &tokens, &decls, spec)?;
    Ok(out)
}

// How it is evaluated and parsed, as lines.
#[tactic(auto, using(crate::proofs::Explained::tells_plan))]
fn plan(alloc: Global, loaded: &Loaded) -> Result<Vec<u8>, NoMemory>
    ensures { IfOk result (λ v. TellsPlan loaded.now.spec v.items) }
{
    loaded.facts();
    loaded.tables.sound();
    let mut out = Vec::new(alloc);
    let states = loaded.tables.states();
    write_plan(alloc, &mut out, &loaded.spec, &loaded.plans, states)?;
    Ok(out)
}

// The same if it is wanted.
fn wanted_plan(alloc: Global, loaded: &Loaded, planned: bool) -> Result<Vec<u8>, NoMemory>
    ensures { IfOk result (λ v. TellsWanted planned loaded.now.spec v.items) }
{
    if planned {
        plan(alloc, loaded)
    } else {
        Ok(Vec::new(alloc))
    }
}

/// What is told of a specification that is accepted: `ok`, what of it is of no use, and if it is wanted the plan.
#[tactic(auto, using(crate::proofs::Explained::accepts_with))]
pub fn told_with(
    alloc: Global,
    file: &[u8],
    bytes: &[u8],
    loaded: &Loaded,
    planned: bool,
) -> Result<Vec<u8>, NoMemory>
    ensures { IfOk result (λ v. AcceptsWith planned file.now bytes.now loaded.now.spec v.items) }
{
    let mut out = told(alloc, file, bytes, &loaded.spec)?;
    out.extend_from_slice(&wanted_plan(alloc, loaded, planned)?)?;
    Ok(out)
}
