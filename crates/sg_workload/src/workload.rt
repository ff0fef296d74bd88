// The commands of a workload.
ghost use Rattle.std.specs.Prelude.{◌≡◌, ◌≤◌, ◌<◌, ◌^◌, ◌+◌, ◌++◌, replicate, IfOk, OnOk};
ghost use Rattle.sg_script.specs.declared.command.Command.TheVariants.{Undo, Redo};
ghost use Rattle.sg_workload.specs.Workload.{next_number, declaration, print, statement_by, statement_of, turns, opening, statements, workload};

use sg_kinds::decimal::write_number;
use sg_kinds::memory::NoMemory;
use sg_kinds::text::Text;
use sg_script::Command;
use std::alloc::Global;

/// How many statements a workload has at most.
pub const MOST_STATEMENTS: usize = 400;

/// How many changes are undone and done again at most.
const MOST_TURNS: usize = 100;

// the number after that one
fn next_number(x: u64) -> u64
    requires { x < 2 ^ 31 }
    ensures next { result ≡ next_number x }
    ensures small { result < 2 ^ 31 }
{
    (x * 1_103_515_245 + 12_345) % 2_147_483_648
}

// the declaration of a name
fn declaration(alloc: Global, name: u64, value: u64) -> Result<Vec<u8>, NoMemory>
    ensures { IfOk result (λ s. s.items ≡ declaration name value) }
{
    let mut text = Vec::from_slice(alloc, b"let v")?;
    write_number(alloc, &mut text, name)?;
    text.extend_from_slice(b" = ")?;
    write_number(alloc, &mut text, value)?;
    Ok(text)
}

// its print
fn print(alloc: Global, name: u64) -> Result<Vec<u8>, NoMemory>
    ensures { IfOk result (λ s. s.items ≡ print name) }
{
    let mut text = Vec::from_slice(alloc, b"print v")?;
    write_number(alloc, &mut text, name)?;
    Ok(text)
}

// the statement of the upper bits of a number
fn statement_by(alloc: Global, y: u64) -> Result<Vec<u8>, NoMemory>
    ensures { IfOk result (λ s. s.items ≡ statement_by y) }
{
    let name = y % 8;
    if y / 8 % 2 == 0 {
        declaration(alloc, name, y % 1000)
    } else {
        print(alloc, name)
    }
}

// the statement of a number
fn statement_of(alloc: Global, x: u64) -> Result<Text, NoMemory>
    ensures { IfOk result (λ t. t ≡ statement_of x) }
{
    Ok(Text::new(statement_by(alloc, x / 65_536)?))
}

// a buffer whose first statement is selected
fn open(alloc: Global, commands: &mut Vec<Command>) -> Result<(), NoMemory>
    ensures { OnOk result (commands.new.items ≡ commands.old.items ++ opening) }
{
    commands.push(Command::New(Text::from_slice(alloc, b"main")?))?;
    commands.push(Command::Next)?;
    commands.push(Command::Next)?;
    Ok(())
}

// the statements, each behind the one before
fn write(alloc: Global, count: usize, commands: &mut Vec<Command>) -> Result<(), NoMemory>
    requires { count ≤ 400 }
    ensures { OnOk result (commands.new.items ≡ commands.old.items ++ statements count count) }
{
    let mut x = count as u64;
    for i in 0..count {
        x = next_number(x);
        if i > 0 {
            commands.push(Command::InsertAfter)?;
        }
        commands.push(Command::Text(statement_of(alloc, x)?))?;
    }
    Ok(())
}

// so many changes undone
fn undo(count: usize, commands: &mut Vec<Command>) -> Result<(), NoMemory>
    ensures { OnOk result (commands.new.items ≡ commands.old.items ++ replicate count Undo) }
{
    for _turn in 0..count {
        commands.push(Command::Undo)?;
    }
    Ok(())
}

// and done again
fn redo(count: usize, commands: &mut Vec<Command>) -> Result<(), NoMemory>
    ensures { OnOk result (commands.new.items ≡ commands.old.items ++ replicate count Redo) }
{
    for _turn in 0..count {
        commands.push(Command::Redo)?;
    }
    Ok(())
}

/// The commands of the workload of so many statements.
pub fn commands(alloc: Global, count: usize) -> Result<Vec<Command>, NoMemory>
    requires { count ≤ MOST_STATEMENTS }
    ensures { IfOk result (λ cs. cs.items ≡ workload count) }
{
    let mut commands = Vec::new(alloc);
    open(alloc, &mut commands)?;
    write(alloc, count, &mut commands)?;
    let turns = count.min(MOST_TURNS);
    undo(turns, &mut commands)?;
    redo(turns, &mut commands)?;
    Ok(commands)
}
