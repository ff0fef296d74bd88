//! Laws of scripts, each as the contract of a function without code.
ghost use Rattle.std.specs.Prelude.{◌≡◌, List, true, Some, Ok};
ghost use Rattle.sg_script.specs.declared.command.Command.{Command};
ghost use Rattle.sg_script.specs.Commands.{command_of};
ghost use Rattle.sg_script.specs.Script.{script_of};
ghost use Rattle.sg_script.specs.Spelled.{line_of, has_forms, text_of, is_script};

/// Each command whose words have their forms has a line that spells it, and is the command of that line. Lines that
/// spell commands, joined by newlines, are a script of these commands, within the limits of scripts.
#[tactic(auto, using(crate::proofs::SpelledScripts::spelled, crate::proofs::SpelledScripts::spelled_script))]
pub fn spelled_commands()
    ensures line { (c : Command) → has_forms c ≡ true → command_of (line_of c) ≡ Some c }
    ensures script { (cs : List Command) → is_script cs ≡ true → script_of (text_of cs) ≡ Ok cs }
{}
