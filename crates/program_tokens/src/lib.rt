//! The tokens of a program's text: words, marks, numbers and texts, each with its line; and what every grammar of
//! such tokens is read by.
#![tactic(auto)]

mod fault;
mod items;
mod laws;
mod lexer;
mod print;
mod readers;
mod token;
mod tokens;
mod words;

pub use fault::SyntaxFault;
pub use items::{Item, Repeated, closed, kind, kinds, read_repeated, separated};
pub use laws::{a_text_has_one_token_list, what_is_printed_is_read};
pub use print::append_lexeme;
pub use readers::{eat, expect, expect_line, ident, natural, quoted, refused, sees_end};
pub use token::{Ident, Lexeme, Number, Token};
pub use tokens::Tokens;
pub use words::{is_name_text, is_of_word};
