ghost use Rattle.std.specs.Prelude.{◌≡◌};
ghost use Rattle.loop_program.specs.Whole.{with_blocks};

use hal_base::{Counts, Items, Shape, Text};
use program_sketch::Asked;
use std::marker::Model;
use type_checker::{Typed, Uses};

/// Names, or names of files.
pub type Names = Items<Text>;

/// A program in which no fault is found. The shape has no block counts before `with_blocks`; its sources and its state have
/// the caches that no word refuses.
/// docs/LANGUAGE.md, "Programs".
#[derive(Drop)]
pub struct Program {
    /// Its own functions.
    pub typed: Typed,
    /// The functions that each step uses.
    pub uses: Uses,
    pub shape: Shape,
    /// The name of each table, in the order of the text.
    pub names: Names,
    /// The file of each table.
    pub files: Names,
    /// The caches that it asks for.
    pub asked: Asked,
}

impl Model for Program {
    ghost use Rattle.std.specs.Coded.{codes};
    ghost use Rattle.function_language.specs.contracts.tree.Expr as expr;
    ghost use Rattle.function_language.specs.contracts.tree.Statement as statement;
    ghost use Rattle.loop_program.specs.Rules.{KeepsRules};
    ghost use Rattle.loop_program.specs.Whole.{Whole, whole_of};

    ghost Value = { Whole };

    ghost coded = { Prim.hlevel (codes, expr.the_row.coded, statement.the_row.coded) };

    ghost view = { λ p. whole_of p.typed p.uses p.shape p.names p.files p.asked };

    ghost invariant = { λ p. KeepsRules (whole_of p.typed p.uses p.shape p.names p.files p.asked) };
}

impl Program {
    /// The same program, whose tables have so many blocks.
    pub fn with_blocks(self, blocks: Counts) -> Program
        ensures { result ≡ with_blocks self blocks }
    {
        let mut shape = self.shape;
        shape.blocks = blocks;
        Program { shape, ..self }
    }
}
