ghost use Rattle.std.specs.Prelude.{◌≡◌, ◌∷◌, true, IfOk, OnOk};
ghost use Rattle.program_tokens.specs.steps.Front as front;
ghost use Rattle.program_tokens.specs.Tokens.{AreTokensOf};
ghost use Rattle.program_tokens.specs.steps.Front.{AreSpelled, goes_on};

use crate::lexer::Lexer;
use crate::token::{Lexeme, Token};
use hal_base::Memory;
use std::alloc::Global;
use std::marker::Model;

/// The tokens of a text that are left, of which the next one is read. The last is `End` or `Bad`.
#[derive(Drop)]
pub struct Tokens<'a> {
    next: Token,
    text: Lexer<'a>,
}

impl<'a> Model for Tokens<'a> {
    ghost use Rattle.std.specs.Prelude.{List};
    ghost use Rattle.program_tokens.specs.declared.token.Token.{Token as OneToken};
    ghost use Rattle.program_tokens.specs.steps.Cursor.{IsKept, tokens_from};

    ghost Value = { List OneToken };

    ghost view = { tokens_from };

    ghost invariant = { IsKept };
}

impl<'a> Tokens<'a> {
    /// The tokens of a text. docs/LANGUAGE.md, "Tokens".
    pub fn new(alloc: Global, text: &'a [u8]) -> Result<Tokens<'a>, Memory>
        ensures { IfOk result (λ tokens. AreTokensOf text.now tokens) }
    {
        let mut text = Lexer {
            left: text,
            line: 1,
        };
        let next = text.token(alloc)?;
        Ok(Tokens { next, text })
    }

    /// The next token.
    pub fn peek(&self) -> &Token
        ensures first { self.now ≡ result.now ∷ front.later self.now }
        ensures spelled { AreSpelled self.now }
    {
        &self.next
    }

    /// The line of the next token.
    pub fn line(&self) -> u64
        ensures { result ≡ front.line_of self.now }
    {
        self.next.line
    }

    /// Whether the next token is this word or mark.
    pub fn sees(&self, word: &[u8]) -> bool
        ensures { result ≡ front.sees word.now self.now }
    {
        match &self.next.lexeme {
            Lexeme::Plain(other) => other.as_slice() == word,
            _ => false,
        }
    }

    /// Goes past the next token, behind which there is another. After `Memory` the tokens may be any.
    pub fn skip(&mut self, alloc: Global) -> Result<(), Memory>
        requires more { goes_on self.old ≡ true }
        ensures { OnOk result (self.new ≡ front.later self.old) }
    {
        let _skipped = self.take(alloc)?;
        Ok(())
    }

    /// Takes the next token, behind which there is another. After `Memory` the tokens may be any.
    pub fn take(&mut self, alloc: Global) -> Result<Token, Memory>
        requires more { goes_on self.old ≡ true }
        ensures taken { IfOk result (λ token. self.old ≡ token ∷ self.new) }
    {
        let next = self.text.token(alloc)?;
        Ok(std::mem::replace(&mut self.next, next))
    }
}
