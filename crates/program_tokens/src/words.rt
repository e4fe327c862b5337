ghost use Rattle.std.specs.Prelude.{◌≡◌};
ghost use Rattle.std.specs.List.{list_all, list_any};
ghost use Rattle.std.specs.Str.{bytes_eq};
ghost use Rattle.program_tokens.specs.Words.{begins_lower, is_lower, is_name, is_name_byte, is_word, is_word_byte, reserved};

/// Whether these bytes can be a name. docs/LANGUAGE.md, "Tokens".
pub fn is_name_text(bytes: &[u8]) -> bool
    ensures { result ≡ is_name bytes.now }
{
    is_word_text(bytes) && !is_reserved(bytes)
}

/// Whether these bytes can be a name or a reserved word.
pub(crate) fn is_word_text(bytes: &[u8]) -> bool
    ensures { result ≡ is_word bytes.now }
{
    begins_with_letter(bytes) && bytes.len() <= 31 && are_of_name(bytes)
}

fn are_of_name(bytes: &[u8]) -> bool
    ensures { result ≡ list_all is_name_byte bytes.now }
{
    bytes.iter().all(|byte| is_of_name(*byte))
}

fn begins_with_letter(bytes: &[u8]) -> bool
    ensures { result ≡ begins_lower bytes.now }
{
    match bytes {
        [first, ..] => is_small_letter(*first),
        [] => false,
    }
}

fn is_small_letter(byte: u8) -> bool
    ensures { result ≡ is_lower byte }
{
    97 <= byte && byte <= 122
}

fn is_of_name(byte: u8) -> bool
    ensures { result ≡ is_name_byte byte }
{
    is_small_letter(byte) || (48 <= byte && byte <= 57) || byte == 95
}

/// Whether words go on with this byte.
pub fn is_of_word(byte: u8) -> bool
    ensures { result ≡ is_word_byte byte }
{
    is_of_name(byte) || (65 <= byte && byte <= 90)
}

const RESERVED: [&str; 31] = [
    "program",
    "parts",
    "rounds",
    "stop",
    "exact",
    "below",
    "by",
    "cache",
    "reducer_input",
    "reducer_output",
    "mapper_input",
    "table",
    "begin",
    "step",
    "state",
    "prev",
    "round",
    "reduce",
    "map",
    "distance",
    "partition",
    "let",
    "set",
    "if",
    "else",
    "for",
    "in",
    "emit",
    "give",
    "int",
    "text",
];

fn is_reserved(bytes: &[u8]) -> bool
    ensures { result ≡ list_any (bytes_eq bytes.now) reserved }
{
    is_among(bytes, &RESERVED)
}

fn is_among(bytes: &[u8], words: &[&str]) -> bool
    ensures { result ≡ list_any (λ word. bytes_eq bytes.now word.now) words.now }
{
    words.iter().any(|word| bytes == word.as_bytes())
}
