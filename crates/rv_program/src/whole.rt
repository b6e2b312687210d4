// The code of a whole program.

ghost use Rattle.std.specs.Prelude.{◌≡◌, ◌++◌, OnOk, IfOk};
ghost use Rattle.pli_typing.specs.TypedStatementView.{program_of};
ghost use Rattle.pli_coding.specs.Images as form;
ghost use Rattle.pli_frames.specs.Parts.{parts};
ghost use Rattle.rv_address.specs.Around.{environment_of};

use rv_address::environment::Environment;
use rv_address::known::Known;
use rv_assembly::code::Code;
use rv_procedure::procedure::procedures_code;
use rv_procedure::routine::routines_code;
use rv_start::blocks::blocks_of;
use rv_start::raise::raise_code;
use rv_start::start::start_code;
use std::alloc::{AllocError, Global};

/// The start, the routines of raises, those of extents, and the procedures.
fn code_in(alloc: Global, code: &mut Code, environment: &Environment) -> Result<(), AllocError>
    ensures { OnOk result (code.new ≡ code.old ++ form.code_in (environment_of environment.now)) }
{
    start_code(alloc, code, environment)?;
    raise_code(code)?;
    routines_code(alloc, code, environment, environment.blocks)?;
    let procedures = &environment.known.typed.procedures;
    Ok(procedures_code(alloc, code, environment, procedures)?)
}

/// The code of a program.
pub fn code_of(alloc: Global, known: &Known) -> Result<Code, AllocError>
    ensures { IfOk result (λ code. code ≡ form.code_of parts (program_of known.now.typed.now)) }
{
    let blocks = blocks_of(alloc, &known.typed.procedures)?;
    let environment = Environment::new(known, &blocks);
    let mut code = Code::new(alloc);
    code_in(alloc, &mut code, &environment)?;
    Ok(code)
}
