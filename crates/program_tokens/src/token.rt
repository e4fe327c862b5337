use hal_base::Text;

/// What a token is, wherever it stands. docs/LANGUAGE.md, "Tokens".
#[derive(Drop)]
pub enum Lexeme {
    /// A reserved word, a name or a mark, as it is spelled.
    Plain(Text),
    Int(i64),
    /// A text between quotes, as it reads.
    Quoted(Text),
    /// Bytes that are no token.
    Bad,
    /// The end of the text.
    End,
}

/// A token and the line, from 1, in which it begins.
#[derive(Drop)]
pub struct Token {
    pub lexeme: Lexeme,
    pub line: u64,
}

/// A name and the line in which it stands.
#[derive(Drop)]
pub struct Ident {
    pub text: Text,
    pub line: u64,
}

/// A number and the line in which it stands.
#[derive(Drop)]
pub struct Number {
    pub value: i64,
    pub line: u64,
}
