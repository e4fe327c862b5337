ghost use Rattle.std.specs.Prelude.{◌≡◌, IfErr, IfOk};
ghost use Rattle.function_language.specs.Spelled.{CanBeSpelled};
ghost use Rattle.type_checker.specs.Functions.{AreTyped, HaveTypeFault};
ghost use Rattle.type_checker.specs.Uses as uses;

use crate::fault::TypeFault;
use crate::flags::{function_uses_round, keeps_its_key};
use crate::function::check_functions;
use crate::uses::Use;
use function_language::Tree;
use std::alloc::Global;
use std::marker::Model;

/// Functions in which the check finds no fault, and whose names can be spelled and whose literals are values.
#[derive(Drop)]
pub struct Typed {
    tree: Tree,
}

impl Model for Typed {
    ghost use Rattle.std.specs.Prelude.{List};
    ghost use Rattle.function_language.specs.declared.tree.Function.{Function as Written};
    ghost use Rattle.function_language.specs.contracts.tree.Expr as expr;
    ghost use Rattle.function_language.specs.contracts.tree.Statement as statement;
    ghost use Rattle.std.specs.Coded.{codes};
    ghost use Rattle.function_language.specs.Spelled.{CanBeSpelled};
    ghost use Rattle.type_checker.specs.Functions.{AreTyped};

    ghost Value = { List Written };

    ghost coded = { Prim.hlevel (codes, expr.the_row.coded, statement.the_row.coded) };

    ghost view = { λ t. t.tree };

    ghost invariant = { λ t. AreTyped t.tree × CanBeSpelled t.tree };
}

impl Typed {
    /// The functions as they were read.
    pub fn tree(&self) -> &Tree
        ensures value { result.now ≡ self.now }
        ensures typed { AreTyped self.now }
        ensures spelled { CanBeSpelled self.now }
    {
        &self.tree
    }

    /// Whether `round` stands in the function that a place uses.
    pub fn round_used(&self, used: Option<Use>) -> bool
        ensures { result ≡ uses.round_used self.now used }
    {
        match used {
            Some(Use::Function(number)) => match self.tree.get(number as usize) {
                Some(function) => function_uses_round(function),
                None => false,
            },
            _ => false,
        }
    }

    /// Whether the reduce that a place uses emits at its key alone, by how it is written.
    pub fn key_kept(&self, used: Option<Use>) -> bool
        ensures { result ≡ uses.key_kept self.now used }
    {
        match used {
            Some(Use::Least | Use::Every) => true,
            Some(Use::Function(number)) => match self.tree.get(number as usize) {
                Some(function) => keeps_its_key(function),
                None => false,
            },
            _ => false,
        }
    }
}

/// Checks the kinds and the scopes of functions. The answer is the same functions, or the first fault in
/// them: functions in the order of the text, and in each its name, its parameters, its streams and its body
/// from the left. After a refusal the functions are gone. docs/LANGUAGE.md, "Kinds and scopes".
pub fn check(alloc: Global, tree: Tree) -> Result<Typed, TypeFault>
    ensures typed { IfOk result (λ typed. (typed ≡ tree) × AreTyped tree) }
    ensures spelled { IfOk result (λ typed. CanBeSpelled typed) }
    ensures refused { IfErr result (HaveTypeFault tree) }
{
    check_functions(alloc, tree.as_slice())?;
    Ok(Typed { tree })
}
