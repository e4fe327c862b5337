ghost use Rattle.std.specs.Prelude.{IfErr, IfOk};
ghost use Rattle.program_tokens.specs.Texts.{IsTextOf, Refuses};
ghost use Rattle.function_language.specs.Spelled.{only_functions_pieces};

use crate::function::functions;
use crate::tree::Tree;
use program_tokens::{SyntaxFault, Tokens, refused, sees_end};
use std::alloc::Global;

/// The functions whose text this is. `At` names the line of the first token such that no functions begin
/// with the tokens up to it. docs/LANGUAGE.md, "Functions".
pub fn read_functions(alloc: Global, text: &[u8]) -> Result<Tree, SyntaxFault>
    ensures read { IfOk result (IsTextOf only_functions_pieces text.now) }
    ensures refused { IfErr result (Refuses only_functions_pieces text.now) }
{
    let mut tokens = Tokens::new(alloc, text)?;
    let found = functions(alloc, &mut tokens)?;
    if !sees_end(&tokens) {
        return Err(refused(&tokens));
    }
    Ok(found)
}
