//! Writes the first records of a symbol file: its PDB file and its program.

ghost use Rattle.std.specs.Prelude.{◌≡◌, ◌++◌, codes, IfOk, OnOk, string_bytes};
ghost use Rattle.pdb_breakpad.specs.ModuleRecord.{AreModuleRecords, IsMachineText, module_line, program_lines};
ghost use Rattle.pdb_breakpad.specs.ModuleRecord.{with_breaks};

use crate::name_text::{push_line_text, push_name};
use pdb_identity::{CodeId, DebugId, Machine};
use std::alloc::{AllocError, Global};

/// The build to which a symbol file belongs.
#[derive(Debug, Clone, Copy)]
pub struct ModuleIdentity<'m> {
    pub machine: Option<Machine>,
    pub debug_id: DebugId,
    /// The name of the PDB file, without folders.
    pub pdb_name: &'m str,
    /// The program itself, if it is known.
    pub program: Option<ProgramIdentity<'m>>,
}

/// The identity of a program, by its own file.
#[derive(Debug, Clone, Copy)]
pub struct ProgramIdentity<'m> {
    pub code_id: CodeId,
    /// The name of the file, without folders.
    pub name: &'m str,
}

/// The text of these records.
pub(crate) fn module_records(
    alloc: Global,
    identity: &ModuleIdentity<'_>,
) -> Result<String, AllocError>
    ensures { IfOk result (λ text. AreModuleRecords identity.now (string_bytes text)) }
{
    let machine = machine_text(alloc, identity.machine)?;
    let debug_id = format!(in alloc; "{}", identity.debug_id.compact())?;
    let code_id = code_id_text(alloc, &identity.program)?;
    let mut text = String::new(alloc);
    push_module(&mut text, &machine, &debug_id, identity.pdb_name)?;
    push_program(&mut text, &code_id, &identity.program)?;
    Ok(text)
}

// The name of a machine, or `unknown`.
fn machine_text(alloc: Global, machine: Option<Machine>) -> Result<String, AllocError>
    ensures { IfOk result (λ text. IsMachineText machine (string_bytes text)) }
{
    match machine {
        Some(machine) => format!(in alloc; "{machine}"),
        None => String::from_str(alloc, "unknown"),
    }
}

// The code id of a program; empty if it isn't known.
fn code_id_text(
    alloc: Global,
    program: &Option<ProgramIdentity<'_>>,
) -> Result<String, AllocError> {
    match program {
        Some(program) => format!(in alloc; "{}", program.code_id),
        None => Ok(String::new(alloc)),
    }
}

// Appends the line of the PDB file.
fn push_module(
    text: &mut String,
    machine: &str,
    debug_id: &str,
    name: &str,
) -> Result<(), AllocError>
    ensures { OnOk result (string_bytes text.new
        ≡ string_bytes text.old ++ (module_line machine.now debug_id.now name.now ++ codes "\n")) }
{
    text.push_str("MODULE windows ")?;
    push_line_text(text, machine)?;
    text.push(' ')?;
    push_line_text(text, debug_id)?;
    text.push(' ')?;
    push_name(text, name)
}

// Appends the line of the program, if it is known.
fn push_program(
    text: &mut String,
    code_id: &str,
    program: &Option<ProgramIdentity<'_>>,
) -> Result<(), AllocError>
    ensures { OnOk result (string_bytes text.new
        ≡ string_bytes text.old ++ with_breaks (program_lines code_id.now program.now)) }
{
    let Some(program) = program else {
        return Ok(());
    };
    text.push_str("INFO CODE_ID ")?;
    push_line_text(text, code_id)?;
    text.push(' ')?;
    push_name(text, program.name)
}
