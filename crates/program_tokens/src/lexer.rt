// The lexer goes over a text from left to right, and cuts one token after another from its front.
ghost use Rattle.std.specs.Prelude.{◌≡◌, ◌+◌, ◌<◌, ◌≤◌, ◌^◌, ℕ, List, [], ◌∷◌, length, length as seq_length, take, drop, IfOk, IfSome, IfNone, slice_get, Some, option_copied};
ghost use Rattle.hal_base.specs.Text.{IsText};
ghost use Rattle.program_tokens.specs.declared.token.Lexeme.TheVariants.{Plain};
ghost use Rattle.program_tokens.specs.steps.Lexing as lexing;
ghost use Rattle.program_tokens.specs.Tokens.{behind_comment, from_token, line_ends};

use crate::token::{Lexeme, Token};
use crate::words::{is_of_word, is_word_text};
use hal_base::{Memory, Text, read_number};
use memchr::memchr;
use std::alloc::Global;

/// What is left of a text, and the number of the line that it begins in.
#[derive(Drop)]
pub(crate) struct Lexer<'a> {
    pub(crate) left: &'a [u8],
    pub(crate) line: u64,
}

impl<'a> Lexer<'a> {
    /// Takes the next token, behind blanks and comments; leaves what is no token.
    pub(crate) fn token(&mut self, alloc: Global) -> Result<Token, Memory>
        requires { self.old.line + length self.old.left.now < 2 ^ 64 }
        ensures taken { IfOk result (λ token. lexing.tokens_of (self.old.line + line_ends self.old.left.now) self.old.left.now ≡ token ∷ lexing.behind token.lexeme (lexing.tokens_of (self.new.line + line_ends self.new.left.now) self.new.left.now)) }
        ensures room { self.new.line + length self.new.left.now < 2 ^ 64 }
    {
        self.skip();
        let line = self.line;
        let lexeme = self.lexeme(alloc)?;
        Ok(Token { lexeme, line })
    }

    /// Goes past blanks and comments, and counts the lines that end there.
    fn skip(&mut self)
        requires { self.old.line + length self.old.left.now < 2 ^ 64 }
        ensures front { self.new.left.now ≡ from_token self.old.left.now }
        ensures lines { self.new.line + line_ends self.new.left.now ≡ self.old.line + line_ends self.old.left.now }
        ensures room { self.new.line + length self.new.left.now < 2 ^ 64 }
    {
        let mut left = self.left;
        let mut line = self.line;
        'bytes: while let [byte, rest @ ..] = left {
            match *byte {
                b' ' | b'\t' | b'\r' => left = rest,
                b'\n' => {
                    line += 1;
                    left = rest;
                }
                b'#' => left = from_line_end(rest),
                _ => break 'bytes,
            }
        }
        self.left = left;
        self.line = line;
    }

    /// Takes the token that the text begins with.
    fn lexeme(&mut self, alloc: Global) -> Result<Lexeme, Memory>
        ensures taken { IfOk result (λ lexeme. lexing.cut self.old.left.now ≡ (lexeme, self.new.left.now)) }
        ensures line { self.new.line ≡ self.old.line }
        ensures within { length self.new.left.now ≤ length self.old.left.now }
    {
        match self.left {
            [] => Ok(Lexeme::End),
            [b'"', ..] => self.quoted(alloc),
            [b'-', behind @ ..] => self.dash(alloc, behind),
            [byte, ..] => {
                if is_mark(*byte) {
                    self.plain(alloc, 1)
                } else {
                    self.word(alloc)
                }
            }
        }
    }

    /// Takes a text within quotes.
    fn quoted(&mut self, alloc: Global) -> Result<Lexeme, Memory>
        requires { slice_get self.old.left.now 0 ≡ Some 34 }
        ensures taken { IfOk result (λ lexeme. lexing.cut_quoted self.old.left.now [] (drop 1 self.old.left.now) ≡ (lexeme, self.new.left.now)) }
        ensures line { self.new.line ≡ self.old.line }
        ensures within { length self.new.left.now ≤ length self.old.left.now }
    {
        let mut text = Text::new(alloc);
        match unquote(&self.left[1..], &mut text)? {
            Some(rest) => {
                self.left = rest;
                Ok(Lexeme::Quoted(text))
            }
            None => Ok(Lexeme::Bad),
        }
    }

    /// Takes what begins with `-`: an arrow or a number.
    fn dash(&mut self, alloc: Global, behind: &[u8]) -> Result<Lexeme, Memory>
        requires { self.old.left.now ≡ 45 ∷ behind.now }
        ensures taken { IfOk result (λ lexeme. lexing.cut_dash behind.now ≡ (lexeme, self.new.left.now)) }
        ensures line { self.new.line ≡ self.old.line }
        ensures within { length self.new.left.now ≤ length self.old.left.now }
    {
        if is_arrow(behind) {
            self.plain(alloc, 2)
        } else {
            Ok(self.number(1 + word_length(behind)))
        }
    }

    /// Takes a word, which may be a number.
    fn word(&mut self, alloc: Global) -> Result<Lexeme, Memory>
        ensures taken { IfOk result (λ lexeme. lexing.cut_word self.old.left.now ≡ (lexeme, self.new.left.now)) }
        ensures line { self.new.line ≡ self.old.line }
        ensures within { length self.new.left.now ≤ length self.old.left.now }
    {
        let length = word_length(self.left);
        if is_word_text(&self.left[..length]) {
            self.plain(alloc, length)
        } else {
            Ok(self.number(length))
        }
    }

    /// Takes the next bytes, this many, if they are a number.
    fn number(&mut self, length: usize) -> Lexeme
        requires { length ≤ seq_length self.old.left.now }
        ensures taken { lexing.as_number (lexing.number_of (take length self.old.left.now)) (drop length self.old.left.now) self.old.left.now ≡ (result, self.new.left.now) }
        ensures line { self.new.line ≡ self.old.line }
        ensures within { seq_length self.new.left.now ≤ seq_length self.old.left.now }
    {
        let (piece, rest) = self.left.split_at(length);
        match read_number(piece) {
            Some(number) => {
                self.left = rest;
                Lexeme::Int(number)
            }
            None => Lexeme::Bad,
        }
    }

    /// Takes the next bytes, this many, as they are.
    fn plain(&mut self, alloc: Global, length: usize) -> Result<Lexeme, Memory>
        requires within { length ≤ seq_length self.old.left.now }
        requires text { IsText (take length self.old.left.now) }
        ensures lexeme { IfOk result (λ lexeme. lexeme ≡ Plain (take length self.old.left.now)) }
        ensures rest { IfOk result (λ _. self.new.left.now ≡ drop length self.old.left.now) }
        ensures line { self.new.line ≡ self.old.line }
        ensures within { seq_length self.new.left.now ≤ seq_length self.old.left.now }
    {
        let (word, rest) = self.left.split_at(length);
        let word = Text::from_bytes(alloc, word)?;
        self.left = rest;
        Ok(Lexeme::Plain(word))
    }
}

/// Adds the bytes up to the next quote to a text, and answers what is behind the quote; nothing, if it is open or the
/// text may not be so.
fn unquote<'t>(bytes: &'t [u8], text: &mut Text) -> Result<Option<&'t [u8]>, Memory>
    ensures value { IfOk result (λ rest. (all : List ℕ) → lexing.cut_quoted all text.old bytes.now ≡ lexing.as_quoted text.new (option_copied rest) all) }
    ensures within { IfOk result (λ rest. IfSome rest (λ rest. length rest.now ≤ length bytes.now)) }
{
    let mut left = bytes;
    'bytes: while let Some((byte, rest)) = character(left) {
        if text.len() == 255 {
            return Ok(None);
        }
        text.push(byte)?;
        left = rest;
    }
    match left {
        [b'"', rest @ ..] => Ok(Some(rest)),
        _ => Ok(None),
    }
}

/// The next byte of a text within quotes, and what is behind it; nothing at the quote, and at what no text has.
fn character(text: &[u8]) -> Option<(u8, &[u8])>
    ensures more { IfSome result (λ c. lexing.GoesOn c.0 c.1.now text.now) }
    ensures last { IfNone result ((all got : List ℕ) → lexing.cut_quoted all got text.now ≡ lexing.last_of_quoted all got text.now) }
{
    match text {
        [b'"', ..] => None,
        [b'\\', byte, rest @ ..] => {
            if *byte == b'"' || *byte == b'\\' {
                Some((*byte, rest))
            } else {
                None
            }
        }
        [b'\\'] => None,
        [byte, rest @ ..] => {
            if 32 <= *byte && *byte <= 126 {
                Some((*byte, rest))
            } else {
                None
            }
        }
        [] => None,
    }
}

/// The text from the end of its first line on.
fn from_line_end(text: &[u8]) -> &[u8]
    ensures front { from_token result.now ≡ behind_comment text.now }
    ensures lines { line_ends result.now ≡ line_ends text.now }
    ensures within { length result.now ≤ length text.now }
{
    match memchr(b'\n', text) {
        Some(at) => &text[at..],
        None => &[],
    }
}

/// How many bytes the word at the front has.
fn word_length(text: &[u8]) -> usize
    ensures front { take result text.now ≡ lexing.word_front text.now }
    ensures rest { drop result text.now ≡ lexing.word_rest text.now }
    ensures within { result ≤ length text.now }
{
    let mut at = 0;
    'bytes: while at < text.len() && is_of_word(text[at]) {
        at += 1;
    }
    at
}

fn is_arrow(behind: &[u8]) -> bool
    ensures { result ≡ lexing.is_arrow behind.now }
{
    match behind {
        [byte, ..] => *byte == b'>',
        [] => false,
    }
}

fn is_mark(byte: u8) -> bool
    ensures { result ≡ lexing.is_mark byte }
{
    byte == b'('
        || byte == b')'
        || byte == b'{'
        || byte == b'}'
        || byte == b','
        || byte == b';'
        || byte == b':'
        || byte == b'='
}
