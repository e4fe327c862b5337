ghost use Rattle.std.specs.Prelude.{◌≡◌, IfErr, IfOk};
ghost use Rattle.function_language.specs.Spelled.{CanBeSpelled};
ghost use Rattle.program_tokens.specs.Texts.{IsTextOf, Refuses};
ghost use Rattle.program_sketch.specs.Programs.{IsJustProgram, IsNotRead};
ghost use Rattle.program_sketch.specs.Spelled.{program_pieces};

use crate::fault::{ProgramFault, What};
use crate::reader::program;
use crate::sketch::Sketch;
use program_tokens::{SyntaxFault, Tokens, refused, sees_end};
use std::alloc::Global;

/// How many bytes the text of a program may have.
const MOST_BYTES: usize = 1_048_576;

/// The program whose text this is. A text of more than 1,048,576 bytes is `Limit` in line 1; else
/// `Syntax` names the line of the first token such that no program begins with the tokens up to it.
/// docs/LANGUAGE.md, "Programs".
pub fn parse_program(alloc: Global, text: &[u8]) -> Result<Sketch, ProgramFault>
    ensures read { IfOk result (IsJustProgram text.now) }
    ensures spelled { IfOk result (λ sketch. CanBeSpelled sketch.functions) }
    ensures refused { IfErr result (IsNotRead text.now) }
{
    if text.len() > MOST_BYTES {
        return Err(ProgramFault::At {
            line: 1,
            what: What::Limit,
        });
    }
    match whole_program(alloc, text) {
        Ok(sketch) => Ok(sketch),
        Err(SyntaxFault::At { line }) => Err(ProgramFault::At {
            line,
            what: What::Syntax,
        }),
        Err(SyntaxFault::Memory) => Err(ProgramFault::Memory),
    }
}

/// The same, whatever the length of the text.
fn whole_program(alloc: Global, text: &[u8]) -> Result<Sketch, SyntaxFault>
    ensures read { IfOk result (IsTextOf program_pieces text.now) }
    ensures refused { IfErr result (Refuses program_pieces text.now) }
{
    let mut tokens = Tokens::new(alloc, text)?;
    let sketch = program(alloc, &mut tokens)?;
    if !sees_end(&tokens) {
        return Err(refused(&tokens));
    }
    Ok(sketch)
}
