ghost use Rattle.std.specs.Prelude.{◌≡◌, [], ◌∷◌, ◌++◌, false, OnOk};
ghost use Rattle.std.specs.Fmt.{signed_decimal};
ghost use Rattle.function_printing.specs.steps.Printer.{put};
ghost use Rattle.program_tokens.specs.Tokens.{begins_in_word, ends_in_word, escaped};

use hal_base::{CopyIn, Memory, Text};
use itoa::Buffer;
use program_tokens::{Lexeme, append_lexeme, is_of_word};
use std::alloc::Global;
use std::marker::Model;

/// A text that is written token by token, and whether a word ends it.
#[derive(Drop)]
pub(crate) struct Printer {
    alloc: Global,
    text: Vec<u8>,
    in_word: bool,
}

impl Model for Printer {
    ghost use Rattle.std.specs.Prelude.{◌≡◌};
    ghost use Rattle.std.specs.Coded.{coded×, coded_bool, coded_list, coded_ℕ};
    ghost use Rattle.function_printing.specs.steps.Printer.{Written};

    ghost Value = { Written };

    ghost coded = { coded× (coded_list coded_ℕ) coded_bool };

    ghost view = { λ p. (p.text.items, p.in_word) };
}

impl Printer {
    /// Nothing, at the front of a line.
    pub(crate) fn new(alloc: Global) -> Printer
        ensures { result ≡ ([], false) }
    {
        Printer {
            alloc,
            text: Vec::new(alloc),
            in_word: false,
        }
    }

    /// What was written.
    pub(crate) fn into_text(self) -> Vec<u8>
        ensures { result.items ≡ self.0 }
    {
        self.text
    }

    /// Adds a word, a mark or a number, behind a blank where two words would be one.
    #[tactic(auto, unfolding(crate::specs::steps::Printer::put))]
    pub(crate) fn put(&mut self, spelled: &[u8]) -> Result<(), Memory>
        ensures { OnOk result (self.new ≡ put self.old spelled.now) }
    {
        if self.in_word && begins_in_word(spelled) {
            self.text.push(b' ')?;
        }
        self.text.extend_from_slice(spelled)?;
        self.in_word = ends_in_word(spelled);
        Ok(())
    }

    /// Adds a number in decimal.
    pub(crate) fn put_number(&mut self, number: i64) -> Result<(), Memory>
        ensures { OnOk result (self.new ≡ put self.old (signed_decimal number)) }
    {
        let mut digits = Buffer::new();
        self.put(digits.format(number).as_bytes())
    }

    /// Adds a text within quotes.
    #[tactic(auto, unfolding(crate::specs::steps::Printer::put))]
    pub(crate) fn put_text(&mut self, text: &Text) -> Result<(), Memory>
        ensures { OnOk result (self.new ≡ put self.old (34 ∷ escaped text.now ++ 34 ∷ [])) }
    {
        let copied = text.copy(self.alloc)?;
        append_lexeme(&mut self.text, &Lexeme::Quoted(copied))?;
        self.in_word = false;
        Ok(())
    }

    /// Ends the line.
    pub(crate) fn end_line(&mut self) -> Result<(), Memory>
        ensures { OnOk result (self.new ≡ (self.old.0 ++ 10 ∷ [], false)) }
    {
        self.text.push(b'\n')?;
        self.in_word = false;
        Ok(())
    }
}

/// Whether the first byte is one of a word.
fn begins_in_word(bytes: &[u8]) -> bool
    ensures { result ≡ begins_in_word bytes.now }
{
    match bytes {
        [first, ..] => is_of_word(*first),
        [] => false,
    }
}

/// Whether the last byte is one of a word.
fn ends_in_word(bytes: &[u8]) -> bool
    ensures { result ≡ ends_in_word bytes.now }
{
    match bytes {
        [.., last] => is_of_word(*last),
        [] => false,
    }
}
