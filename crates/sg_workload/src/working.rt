// The commands of a workload, and its line.
ghost use Rattle.std.specs.Prelude.{◌≡◌, ◌≢◌, ◌≤◌, ◌<◌, ◌^◌, ◌+◌, ◌*◌, ◌⊎◌, length, All, IsTrue, IfOk, IfErr, OnOk, OnErr};
ghost use Rattle.sg_kinds.specs.declared.spec.Spec.{Spec};
ghost use Rattle.sg_eval.specs.Journal.{counted};
ghost use Rattle.sg_load.specs.Only.{IsTheVerdict};
ghost use Rattle.sg_load.specs.Verdict.{IsVerdict};
ghost use Rattle.sg_load.specs.Verdict.Verdict.{Refused, Accepted};
ghost use Rattle.sg_workload.specs.Lines.{lines_text};
ghost use Rattle.sg_editor.specs.Ask.{Readers, AreReaders, asks_nothing};
ghost use Rattle.sg_editor.specs.Editing.{spec_in, height_in, session_of};
ghost use Rattle.sg_editor.specs.Session.{start};
ghost use Rattle.sg_workload.specs.Loads.{played, worked, work, work_line, window_height};
ghost use Rattle.sg_workload.specs.Performed.{ArePerformed, AreCut, IsLinesAccepted};

use crate::language::lines;
use crate::laws::{asks_nothing, sizes};
use crate::telling::{errors, line_of, nodes};
use crate::workload::commands;
use sg_editor::Editor;
use sg_editor::laws::{others_ask_nothing, readers_are_there};
use sg_eval::Journal;
use sg_kinds::fault::SpecFault;
use sg_kinds::memory::NoMemory;
use sg_load::{Loaded, load};
use sg_outside::SureShelf;
use sg_replies::Reply;
use sg_script::Command;
use std::alloc::Global;

// how many entries a journal has in all
fn counted(journal: &Journal) -> u64
    requires { counted journal.now < 2 ^ 62 }
    ensures { result ≡ counted journal.now }
{
    journal.total() + journal.now().len() as u64
}

// performs commands that ask nothing of the shelf, without their screens
fn perform(
    editor: &mut Editor,
    commands: &[Command],
    shelf: &mut SureShelf,
    journal: &mut Journal,
    replies: &mut Vec<Reply>,
) -> Result<(), NoMemory>
    requires quiet { All (λ c. IsTrue (asks_nothing c)) commands.now }
    requires room { counted journal.old + 2 ^ 40 * length commands.now < 2 ^ 61 }
    ensures done { (r : Readers) → AreReaders (spec_in editor.old) r → OnOk result (ArePerformed
        (played (spec_in editor.old) (height_in editor.old) r (session_of editor.old) commands.now)
        (session_of editor.new) (counted journal.old) (counted journal.new)) }
    ensures cut { (r : Readers) → AreReaders (spec_in editor.old) r → OnErr result (AreCut
        (played (spec_in editor.old) (height_in editor.old) r (session_of editor.old) commands.now)
        (counted journal.old) (counted journal.new)) }
    ensures kept { editor.new.setting ≡ editor.old.setting }
    ensures most { OnOk result (counted journal.new ≤ counted journal.old + 2 ^ 40 * length commands.now) }
    ensures later { counted journal.old ≤ counted journal.new }
{
    others_ask_nothing();
    for command in commands {
        editor.step(command, shelf, journal, replies)?;
    }
    Ok(())
}

// performs a workload in a new editor, and tells its line
fn work(
    alloc: Global,
    editor: &mut Editor,
    count: usize,
    journal: &mut Journal,
) -> Result<Vec<u8>, NoMemory>
    requires few { count ≤ 400 }
    requires room { counted journal.old < 2 ^ 60 }
    requires first { session_of editor.old ≡ start }
    requires window { height_in editor.old ≡ window_height }
    ensures line { (r : Readers) → AreReaders (spec_in editor.old) r
        → IfOk result (λ s. s.items ≡ work_line (spec_in editor.old) r count) }
    ensures evaluated { (r : Readers) → AreReaders (spec_in editor.old) r
        → OnOk result (counted journal.new ≡ counted journal.old + work (spec_in editor.old) r count) }
    ensures cut { (r : Readers) → AreReaders (spec_in editor.old) r
        → OnErr result (AreCut (worked (spec_in editor.old) r count) (counted journal.old) (counted journal.new)) }
{
    let commands = commands(alloc, count)?;
    asks_nothing();
    sizes();
    let mut shelf = SureShelf::new(alloc, Vec::new(alloc))?;
    let mut replies = Vec::new(alloc);
    let before = counted(journal);
    perform(editor, &commands, &mut shelf, journal, &mut replies)?;
    let evaluated = counted(journal) - before;
    let errors = errors(alloc, editor)?;
    line_of(alloc, count, nodes(editor), errors.as_slice(), evaluated)
}

// the same in an editor of its own
fn work_alone(
    alloc: Global,
    loaded: Loaded,
    count: usize,
    journal: &mut Journal,
) -> Result<Vec<u8>, NoMemory>
    requires few { count ≤ 400 }
    requires room { counted journal.old < 2 ^ 60 }
    ensures line { (r : Readers) → AreReaders loaded.spec r
        → IfOk result (λ s. s.items ≡ work_line loaded.spec r count) }
    ensures evaluated { (r : Readers) → AreReaders loaded.spec r
        → OnOk result (counted journal.new ≡ counted journal.old + work loaded.spec r count) }
    ensures cut { (r : Readers) → AreReaders loaded.spec r
        → OnErr result (AreCut (worked loaded.spec r count) (counted journal.old) (counted journal.new)) }
{
    let mut editor = Editor::new(alloc, loaded, 80, 24)?;
    work(alloc, &mut editor, count, journal)
}

/// There are readers of the texts of an accepted specification. This does nothing and tells it.
pub fn tell_readers(loaded: &Loaded)
    ensures { (r : Readers) × AreReaders loaded.now.spec r }
{
    loaded.facts();
    loaded.tables.sound();
    loaded.tables.decided();
    readers_are_there();
}

/// Performs the workload of so many statements, at most 400, of the built-in language, without screens and without a
/// call of the shelf, and tells its line. A fault is that of the specification of that language, or `NoMemory`.
pub fn line(alloc: Global, count: usize, journal: &mut Journal) -> Result<Vec<u8>, SpecFault>
    requires few { count ≤ 400 }
    requires room { counted journal.old < 2 ^ 60 }
    ensures line { (spec : Spec) (r : Readers) → IsVerdict lines_text (Accepted spec) → AreReaders spec r
        → IfOk result (λ s. s.items ≡ work_line spec r count) }
    ensures evaluated { (spec : Spec) (r : Readers) → IsVerdict lines_text (Accepted spec) → AreReaders spec r
        → OnOk result (counted journal.new ≡ counted journal.old + work spec r count) }
    ensures cut { (spec : Spec) (r : Readers) → IsVerdict lines_text (Accepted spec) → AreReaders spec r
        → OnErr result (AreCut (worked spec r count) (counted journal.old) (counted journal.new)) }
    ensures accepted { OnOk result IsLinesAccepted }
    ensures fault { IfErr result (λ f. f ≢ SpecFault.NoMemory → IsTheVerdict lines_text (Refused f)) }
    ensures quiet { IfErr result (λ f. f ≢ SpecFault.NoMemory → counted journal.new ≡ counted journal.old) }
    ensures known { OnErr result (IsLinesAccepted ⊎ (counted journal.new ≡ counted journal.old)) }
{
    let loaded = load(alloc, lines())?;
    tell_readers(&loaded);
    Ok(work_alone(alloc, loaded, count, journal)?)
}
