ghost use Rattle.std.specs.Prelude.{◌≡◌, [], ◌∷◌, ◌++◌, OnOk};
ghost use Rattle.program_tokens.specs.Tokens.{escaped, spelling};

use crate::token::Lexeme;
use hal_base::Memory;
use itoa::Buffer;

/// Adds the spelling of a token; of the end of a text, and of what is no token, it adds nothing.
/// docs/LANGUAGE.md, "Tokens".
pub fn append_lexeme(out: &mut Vec<u8>, lexeme: &Lexeme) -> Result<(), Memory>
    ensures { OnOk result (out.new.items ≡ out.old.items ++ spelling lexeme.now) }
{
    match lexeme {
        Lexeme::Plain(word) => out.extend_from_slice(word.as_slice())?,
        Lexeme::Int(number) => {
            let mut digits = Buffer::new();
            out.extend_from_slice(digits.format(*number).as_bytes())?;
        }
        Lexeme::Quoted(text) => append_quoted(out, text.as_slice())?,
        Lexeme::Bad | Lexeme::End => {}
    }
    Ok(())
}

/// Adds a text within quotes.
fn append_quoted(out: &mut Vec<u8>, text: &[u8]) -> Result<(), Memory>
    ensures { OnOk result (out.new.items ≡ out.old.items ++ (34 ∷ (escaped text.now ++ 34 ∷ []))) }
{
    out.push(b'"')?;
    'bytes: for byte in text {
        append_escaped(out, *byte)?;
    }
    out.push(b'"')?;
    Ok(())
}

/// Adds a byte of a text within quotes, behind a `\` where it is a quote or a `\` itself.
fn append_escaped(out: &mut Vec<u8>, byte: u8) -> Result<(), Memory>
    ensures { OnOk result (out.new.items ≡ out.old.items ++ escaped (byte ∷ [])) }
{
    if byte == b'"' || byte == b'\\' {
        out.push(b'\\')?;
    }
    out.push(byte)?;
    Ok(())
}
