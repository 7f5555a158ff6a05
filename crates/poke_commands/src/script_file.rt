//! A script file as a script of a module.
ghost use Rattle.std.specs.Prelude.{◌≤◌, IfErr, IfOk, length};
ghost use Rattle.poke_commands.specs.Runs.{ReadsInput};
ghost use Rattle.poke_commands.specs.Script.{AcceptsScript, RefusesAsScript, RefusesText};
ghost use Rattle.script_text.specs.Laws.{IsScriptOf};

use crate::input::read_input;
use module_image::Image;
use poke_base::Host;
use poke_faults::{Fault, Refusal, SCRIPT_LIMIT, ScriptRefused};
use script_text::{Script, ScriptError};
use std::alloc::Global;

/// Reads a file as a script of a module.
///
/// # Errors
/// `Read` where the file isn't there or a read failed; the first thing that is wrong with the script;
/// out of memory.
pub fn read_script<H: Host>(
    alloc: Global,
    name: &str,
    image: &Image,
    host: &mut H,
) -> Result<Script, Fault>
    ensures reads { ReadsInput (H.outside host.old) (H.outside host.new) name.now (AcceptsScript image.now) (RefusesAsScript image.now) result }
    ensures of { IfOk result (IsScriptOf image.now) }
{
    let bytes = read_input(
        alloc,
        name,
        SCRIPT_LIMIT,
        Refusal::Script(ScriptRefused::TooLong),
        host,
    )?;
    accept_text(alloc, &bytes, image)
}

/// The script that a file's bytes are.
///
/// # Errors
/// The first thing that is wrong with the script; out of memory.
fn accept_text(alloc: Global, bytes: &[u8], image: &Image) -> Result<Script, Fault>
    requires { length bytes.now ≤ 65536 }
    ensures accepted { IfOk result (AcceptsScript image.now bytes.now) }
    ensures of { IfOk result (IsScriptOf image.now) }
    ensures refused { IfErr result (RefusesText image.now bytes.now) }
{
    match Script::read(alloc, bytes, image) {
        Ok(script) => Ok(script),
        Err(ScriptError::Refused { line, why }) => {
            Err(Fault::Refused(Refusal::Script(ScriptRefused::Line { line, why })))
        }
        Err(ScriptError::NoMemory) => Err(Fault::Memory),
    }
}
