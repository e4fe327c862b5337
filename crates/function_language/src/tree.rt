ghost use Rattle.std.specs.Prelude.{◌≡◌, ◌<◌, length, slice_get, OnSome};
ghost use Rattle.std.specs.Option.{option_copied};
ghost use Rattle.function_language.specs.Spelled.{CanBeSpelled};

use hal_base::{Kind, Text};
use program_tokens::Ident;
use sqlite_items::Items;
use std::marker::Model;

/// The kinds of a record, that of the key first.
#[derive(Drop)]
pub struct Row {
    pub kinds: Items<Kind>,
}

#[derive(Drop)]
pub struct Param {
    pub name: Ident,
    pub kind: Kind,
}

/// The kinds are those of the fields, without the key.
#[derive(Drop)]
pub struct Stream {
    pub name: Ident,
    pub kinds: Items<Kind>,
}

/// An expression. A `line` is that of its token. docs/LANGUAGE.md, "Expressions".
#[cycle(expr)]
#[derive(Drop)]
pub enum Expr {
    Int { line: u64, value: i64 },
    Text { line: u64, value: Text },
    Round { line: u64 },
    Name(Ident),
    Call { name: Ident, args: Items<Expr> },
}

pub type Exprs = Items<Expr>;

/// A statement. The `line` of `Emit` and `Give` is that of the word. docs/LANGUAGE.md, "Statements".
#[cycle(statement)]
#[derive(Drop)]
pub enum Statement {
    Let {
        name: Ident,
        value: Expr,
    },
    Set {
        name: Ident,
        value: Expr,
    },
    If {
        test: Expr,
        yes: Items<Statement>,
        no: Option<Items<Statement>>,
    },
    For {
        names: Items<Ident>,
        stream: Ident,
        body: Items<Statement>,
    },
    Emit {
        line: u64,
        args: Exprs,
    },
    Give {
        line: u64,
        value: Expr,
    },
}

pub type Block = Items<Statement>;

/// A function. `arrow` is the line of `->`. docs/LANGUAGE.md, "Functions".
#[derive(Drop)]
pub enum Function {
    Map {
        name: Ident,
        params: Items<Param>,
        arrow: u64,
        out: Row,
        body: Block,
    },
    Reduce {
        name: Ident,
        key: Param,
        streams: Items<Stream>,
        arrow: u64,
        out: Row,
        body: Block,
    },
    Distance {
        name: Ident,
        key: Param,
        before: Stream,
        after: Stream,
        body: Block,
    },
    Partition {
        name: Ident,
        key: Param,
        body: Block,
    },
}

/// Functions, one after another, as they were read from a text.
#[derive(Drop)]
pub struct Tree {
    functions: Items<Function>,
}

impl Model for Tree {
    ghost use Rattle.std.specs.Prelude.{List};
    ghost use Rattle.function_language.specs.declared.tree.Function.{Function as Written};
    ghost use Rattle.function_language.specs.Spelled.{CanBeSpelled};
    ghost use Rattle.function_language.specs.contracts.tree.Expr as expr;
    ghost use Rattle.function_language.specs.contracts.tree.Statement as statement;
    ghost use Rattle.std.specs.Coded.{codes};

    ghost Value = { List Written };

    ghost coded = { Prim.hlevel (codes, expr.the_row.coded, statement.the_row.coded) };

    ghost view = { λ t. t.functions };

    ghost invariant = { λ t. CanBeSpelled t.functions };
}

impl Tree {
    pub(crate) fn new(functions: Items<Function>) -> Tree
        requires { CanBeSpelled functions }
        ensures { result ≡ functions }
    {
        Tree { functions }
    }

    pub fn len(&self) -> usize
        ensures { result ≡ length self.now }
    {
        self.functions.len()
    }

    pub fn get(&self, at: usize) -> Option<&Function>
        ensures value { option_copied result ≡ slice_get self.now at }
        ensures within { OnSome result (at < length self.now) }
    {
        self.functions.get(at)
    }

    pub fn as_slice(&self) -> &[Function]
        ensures value { result.now ≡ self.now }
        ensures spelled { CanBeSpelled self.now }
    {
        self.functions.as_slice()
    }
}
