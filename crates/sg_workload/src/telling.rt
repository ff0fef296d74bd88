// What the line of a workload tells.
ghost use Rattle.std.specs.Prelude.{◌≡◌, IfOk};
ghost use Rattle.sg_editor.specs.Editing.{spec_in, session_of};
ghost use Rattle.sg_workload.specs.Loads.{nodes_in, errors_in, line_of};

use sg_editor::Editor;
use sg_kinds::decimal::write_number;
use sg_kinds::memory::NoMemory;
use sg_printing::shown;
use std::alloc::Global;

/// The slot of `errs`, which stands behind `e` among the attributes of the list.
const ERRS: u32 = 1;

/// How many nodes the term of the current buffer has; none without one.
pub fn nodes(editor: &Editor) -> usize
    ensures { result ≡ nodes_in (session_of editor.now) }
{
    match editor.current() {
        Some(buffer) => buffer.nodes(),
        None => 0,
    }
}

/// How many errors there are in it, printed; nothing where it does not tell them.
pub fn errors(alloc: Global, editor: &Editor) -> Result<Vec<u8>, NoMemory>
    ensures { IfOk result (λ s. s.items ≡ errors_in (spec_in editor.now) (session_of editor.now)) }
{
    let Some(buffer) = editor.current() else {
        return Ok(Vec::new(alloc));
    };
    match shown(alloc, buffer, &[0], ERRS)? {
        Some(text) => Ok(text),
        None => Ok(Vec::new(alloc)),
    }
}

/// The line of a workload of so many statements.
pub fn line_of(
    alloc: Global,
    count: usize,
    nodes: usize,
    errors: &[u8],
    evaluated: u64,
) -> Result<Vec<u8>, NoMemory>
    ensures { IfOk result (λ s. s.items ≡ line_of count nodes errors.now evaluated) }
{
    let mut line = Vec::from_slice(alloc, b"load ")?;
    write_number(alloc, &mut line, count as u64)?;
    line.extend_from_slice(b" nodes ")?;
    write_number(alloc, &mut line, nodes as u64)?;
    line.extend_from_slice(b" errors ")?;
    line.extend_from_slice(errors)?;
    line.extend_from_slice(b" evaluated ")?;
    write_number(alloc, &mut line, evaluated)?;
    line.push(b'\n')?;
    Ok(line)
}
