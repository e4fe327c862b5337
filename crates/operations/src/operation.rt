ghost use Rattle.std.specs.Prelude.{◌≡◌};
ghost use Rattle.operations.specs.Operations as spec;

use hal_base::Kind;

/// An operation. docs/LANGUAGE.md, "Operations".
#[derive(Clone, Copy)]
pub enum Operation {
    Add,
    Sub,
    Mul,
    Div,
    Rem,
    Min,
    Max,
    Eq,
    Ne,
    Lt,
    Le,
    Gt,
    Ge,
    And,
    Or,
    Not,
    Cat,
    Len,
    Cut,
    Num,
    Txt,
    Pick,
}

/// What is wanted of an argument.
#[derive(Clone, Copy)]
pub enum Wanted {
    /// A value of this kind.
    Of(Kind),
    /// A value of either kind.
    Any,
    /// A value of the kind of the argument before.
    AsBefore,
}

/// The operation of this name, if there is one.
#[tactic(auto, unfolding(crate::specs::Operations::operation_named))]
pub fn operation_named(name: &[u8]) -> Option<Operation>
    ensures { result ≡ spec.operation_named name.now }
{
    match name {
        b"add" => Some(Operation::Add),
        b"sub" => Some(Operation::Sub),
        b"mul" => Some(Operation::Mul),
        b"div" => Some(Operation::Div),
        b"rem" => Some(Operation::Rem),
        b"min" => Some(Operation::Min),
        b"max" => Some(Operation::Max),
        b"eq" => Some(Operation::Eq),
        b"ne" => Some(Operation::Ne),
        b"lt" => Some(Operation::Lt),
        b"le" => Some(Operation::Le),
        b"gt" => Some(Operation::Gt),
        b"ge" => Some(Operation::Ge),
        b"and" => Some(Operation::And),
        b"or" => Some(Operation::Or),
        b"not" => Some(Operation::Not),
        b"cat" => Some(Operation::Cat),
        b"len" => Some(Operation::Len),
        b"cut" => Some(Operation::Cut),
        b"num" => Some(Operation::Num),
        b"txt" => Some(Operation::Txt),
        b"pick" => Some(Operation::Pick),
        _ => None,
    }
}

impl Operation {
    /// What the operation wants of each of its arguments.
    pub fn wanted(self) -> &'static [Wanted]
        ensures { result.now ≡ spec.wanted self }
    {
        match self {
            Operation::Not | Operation::Txt => &[Wanted::Of(Kind::Int)],
            Operation::Len | Operation::Num => &[Wanted::Of(Kind::Text)],
            Operation::Cat => &[Wanted::Of(Kind::Text), Wanted::Of(Kind::Text)],
            Operation::Eq
            | Operation::Ne
            | Operation::Lt
            | Operation::Le
            | Operation::Gt
            | Operation::Ge => &[Wanted::Any, Wanted::AsBefore],
            Operation::Cut => &[
                Wanted::Of(Kind::Text),
                Wanted::Of(Kind::Int),
                Wanted::Of(Kind::Int),
            ],
            Operation::Pick => &[Wanted::Of(Kind::Int), Wanted::Any, Wanted::AsBefore],
            Operation::Add
            | Operation::Sub
            | Operation::Mul
            | Operation::Div
            | Operation::Rem
            | Operation::Min
            | Operation::Max
            | Operation::And
            | Operation::Or => &[Wanted::Of(Kind::Int), Wanted::Of(Kind::Int)],
        }
    }

    /// The kind of the operation's value, where its last argument is of this kind.
    pub fn given(self, last: Kind) -> Kind
        ensures { result ≡ spec.given self last }
    {
        match self {
            Operation::Cat | Operation::Cut | Operation::Txt => Kind::Text,
            Operation::Pick => last,
            _ => Kind::Int,
        }
    }
}
