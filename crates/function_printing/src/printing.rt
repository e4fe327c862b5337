ghost use Rattle.std.specs.Prelude.{◌≡◌, ◌∷◌, List, IfOk, OnOk, false, map};
ghost use Rattle.std.specs.List.{flat_map};
ghost use Rattle.program_tokens.specs.Pieces.{Piece};
ghost use Rattle.function_printing.specs.steps.Printer.{ArePlaces, put_all, put_line};
ghost use Rattle.function_printing.specs.Printing.{function_line, tree_text};
ghost use Rattle.program_tokens.specs.Pieces.{comma_separated, each_behind_comma};
ghost use Rattle.function_language.specs.Spelled.{block_pieces, expr_pieces, function_pieces, out_pieces, statement_pieces};
ghost use Rattle.program_tokens.specs.Pieces.{kinds_pieces};
ghost use Rattle.function_language.specs.steps.SpelledLists.{binding_pieces, call_pieces, for_pieces, if_pieces};
ghost use Rattle.function_language.specs.declared.tree.Function.TheVariants as a_function;
ghost use Rattle.function_language.specs.declared.tree.Statement.TheVariants as a_statement;

use crate::printer::Printer;
use function_language::{Block, DEPTH, Expr, Function, Param, Row, Statement, Stream, Tree};
use hal_base::{Kind, Memory};
use program_tokens::Ident;
use sqlite_items::Items;
use std::alloc::Global;

/// What is printed the same wherever it stands.
trait Printed {
    ghost pieces: { Self → List Piece };

    fn print(&self, printer: &mut Printer) -> Result<(), Memory>
        ensures { OnOk result (printer.new ≡ put_all printer.old (pieces self.now)) };
}

impl Printed for Ident {
    ghost use Rattle.std.specs.Prelude.{[], ◌∷◌};
    ghost use Rattle.program_tokens.specs.Pieces.{name as name_piece};

    ghost pieces = { λ ident. name_piece ident ∷ [] };

    fn print(&self, printer: &mut Printer) -> Result<(), Memory> {
        printer.put(self.text.as_slice())
    }
}

impl Printed for Kind {
    ghost use Rattle.program_tokens.specs.Pieces.{kind_pieces};

    ghost pieces = { kind_pieces };

    fn print(&self, printer: &mut Printer) -> Result<(), Memory> {
        match self {
            Kind::Int => printer.put(b"int"),
            Kind::Text => printer.put(b"text"),
        }
    }
}

impl Printed for Param {
    ghost use Rattle.function_language.specs.Spelled.{param_pieces};

    ghost pieces = { param_pieces };

    fn print(&self, printer: &mut Printer) -> Result<(), Memory> {
        self.name.print(printer)?;
        printer.put(b":")?;
        self.kind.print(printer)
    }
}

impl Printed for Stream {
    ghost use Rattle.function_language.specs.Spelled.{stream_pieces};

    ghost pieces = { stream_pieces };

    fn print(&self, printer: &mut Printer) -> Result<(), Memory> {
        self.name.print(printer)?;
        printer.put(b":")?;
        print_kinds(printer, &self.kinds)
    }
}

/// Prints items, perhaps none, with commas between.
fn print_separated<T: Printed>(printer: &mut Printer, items: &[T]) -> Result<(), Memory>
    ensures { OnOk result (printer.new ≡ put_all printer.old (comma_separated (map T.pieces items.now))) }
{
    match items {
        [] => Ok(()),
        [first, others @ ..] => {
            first.print(printer)?;
            print_behind_commas(printer, others)
        }
    }
}

/// Prints items, each behind a comma.
fn print_behind_commas<T: Printed>(printer: &mut Printer, items: &[T]) -> Result<(), Memory>
    ensures { OnOk result (printer.new ≡ put_all printer.old (each_behind_comma (map T.pieces items.now))) }
{
    'items: for item in items {
        printer.put(b",")?;
        item.print(printer)?;
    }
    Ok(())
}

/// Prints kinds between parentheses.
#[tactic(auto, using(crate::proofs::PrintingPlaces::put_both))]
fn print_kinds(printer: &mut Printer, kinds: &Items<Kind>) -> Result<(), Memory>
    ensures { OnOk result (printer.new ≡ put_all printer.old (kinds_pieces kinds.now)) }
{
    printer.put(b"(")?;
    print_separated(printer, kinds.as_slice())?;
    printer.put(b")")
}

/// Prints an expression, in which so many calls may still open.
#[cycle(expression)]
fn print_expr(printer: &mut Printer, depth: u32, expr: &Expr) -> Result<(), Memory>
    requires { ArePlaces (expr_pieces depth expr.now) }
    ensures { OnOk result (printer.new ≡ put_all printer.old (expr_pieces depth expr.now)) }
{
    match expr {
        Expr::Int { value, .. } => printer.put_number(*value),
        Expr::Text { value, .. } => printer.put_text(value),
        Expr::Round { .. } => printer.put(b"round"),
        Expr::Name(name) => name.print(printer),
        Expr::Call { name, args } => {
            name.print(printer)?;
            print_call(printer, depth, args.as_slice())
        }
    }
}

/// Prints a call behind its name.
#[cycle(expression)]
#[tactic(auto, using(crate::proofs::PrintingPlaces::put_both))]
fn print_call(printer: &mut Printer, depth: u32, args: &[Expr]) -> Result<(), Memory>
    requires { ArePlaces (call_pieces depth args.now) }
    ensures { OnOk result (printer.new ≡ put_all printer.old (call_pieces depth args.now)) }
{
    printer.put(b"(")?;
    print_arguments(printer, depth - 1, args)?;
    printer.put(b")")
}

/// Prints expressions, perhaps none, with commas between.
#[cycle(expression)]
fn print_arguments(printer: &mut Printer, depth: u32, args: &[Expr]) -> Result<(), Memory>
    requires { ArePlaces (comma_separated (map (expr_pieces depth) args.now)) }
    ensures { OnOk result (printer.new ≡ put_all printer.old (comma_separated (map (expr_pieces depth) args.now))) }
{
    match args {
        [] => Ok(()),
        [first, others @ ..] => {
            print_expr(printer, depth, first)?;
            print_more_arguments(printer, depth, others)
        }
    }
}

/// Prints expressions, each behind a comma.
#[cycle(expression)]
fn print_more_arguments(printer: &mut Printer, depth: u32, args: &[Expr]) -> Result<(), Memory>
    requires { ArePlaces (each_behind_comma (map (expr_pieces depth) args.now)) }
    ensures { OnOk result (printer.new ≡ put_all printer.old (each_behind_comma (map (expr_pieces depth) args.now))) }
{
    'args: for arg in args {
        printer.put(b",")?;
        print_expr(printer, depth, arg)?;
    }
    Ok(())
}

/// Prints a block, which is the first of so many blocks and calls that may still open.
#[cycle(statement)]
#[tactic(auto, using(crate::proofs::PrintingPlaces::put_both))]
fn print_block(printer: &mut Printer, depth: u32, block: &[Statement]) -> Result<(), Memory>
    requires { ArePlaces (block_pieces depth block.now) }
    ensures { OnOk result (printer.new ≡ put_all printer.old (block_pieces depth block.now)) }
{
    printer.put(b"{")?;
    print_statements(printer, depth - 1, block)?;
    printer.put(b"}")
}

/// Prints statements, one after another.
#[cycle(statement)]
fn print_statements(
    printer: &mut Printer,
    depth: u32,
    statements: &[Statement],
) -> Result<(), Memory>
    requires { ArePlaces (flat_map (statement_pieces depth) statements.now) }
    ensures { OnOk result (printer.new ≡ put_all printer.old (flat_map (statement_pieces depth) statements.now)) }
{
    'statements: for statement in statements {
        print_statement(printer, depth, statement)?;
    }
    Ok(())
}

/// Prints a statement, in which so many blocks and calls may open.
#[cycle(statement)]
fn print_statement(printer: &mut Printer, depth: u32, statement: &Statement) -> Result<(), Memory>
    requires { ArePlaces (statement_pieces depth statement.now) }
    ensures { OnOk result (printer.new ≡ put_all printer.old (statement_pieces depth statement.now)) }
{
    match statement {
        Statement::Let { name, value } => print_binding(printer, depth, b"let", name, value),
        Statement::Set { name, value } => print_binding(printer, depth, b"set", name, value),
        Statement::If { test, yes, no } => print_if(printer, depth, test, yes, no),
        Statement::For {
            names,
            stream,
            body,
        } => print_for(printer, depth, names, stream, body),
        Statement::Emit { args, .. } => print_emit(printer, depth, args.as_slice()),
        Statement::Give { value, .. } => print_give(printer, depth, value),
    }
}

/// Prints a `let` or a `set`, by its word.
#[tactic(auto, using(crate::proofs::PrintingPlaces::put_both))]
fn print_binding(
    printer: &mut Printer,
    depth: u32,
    word: &[u8],
    name: &Ident,
    value: &Expr,
) -> Result<(), Memory>
    requires { ArePlaces (binding_pieces depth word.now name.now value.now) }
    ensures { OnOk result (printer.new ≡ put_all printer.old (binding_pieces depth word.now name.now value.now)) }
{
    printer.put(word)?;
    name.print(printer)?;
    printer.put(b"=")?;
    print_expr(printer, depth, value)?;
    printer.put(b";")
}

/// Prints an `if`.
#[cycle(statement)]
#[tactic(auto, using(crate::proofs::PrintingPlaces::put_both))]
fn print_if(
    printer: &mut Printer,
    depth: u32,
    test: &Expr,
    yes: &Block,
    no: &Option<Block>,
) -> Result<(), Memory>
    requires { ArePlaces (if_pieces depth test.now yes.now no.now) }
    ensures { OnOk result (printer.new ≡ put_all printer.old (if_pieces depth test.now yes.now no.now)) }
{
    printer.put(b"if")?;
    printer.put(b"(")?;
    print_expr(printer, depth, test)?;
    printer.put(b")")?;
    print_block(printer, depth, yes.as_slice())?;
    if let Some(other) = no {
        printer.put(b"else")?;
        print_block(printer, depth, other.as_slice())?;
    }
    Ok(())
}

/// Prints a `for`.
#[cycle(statement)]
#[tactic(auto, using(crate::proofs::PrintingPlaces::put_both))]
fn print_for(
    printer: &mut Printer,
    depth: u32,
    names: &Items<Ident>,
    stream: &Ident,
    body: &Block,
) -> Result<(), Memory>
    requires { ArePlaces (for_pieces depth names.now stream.now body.now) }
    ensures { OnOk result (printer.new ≡ put_all printer.old (for_pieces depth names.now stream.now body.now)) }
{
    printer.put(b"for")?;
    printer.put(b"(")?;
    print_separated(printer, names.as_slice())?;
    printer.put(b")")?;
    printer.put(b"in")?;
    stream.print(printer)?;
    print_block(printer, depth, body.as_slice())
}

/// Prints an `emit`, whatever its line.
#[tactic(auto, using(crate::proofs::PrintingPlaces::put_both))]
fn print_emit(printer: &mut Printer, depth: u32, args: &[Expr]) -> Result<(), Memory>
    requires { ArePlaces (comma_separated (map (expr_pieces depth) args.now)) }
    ensures { OnOk result (printer.new ≡ put_all printer.old (statement_pieces depth (a_statement.Emit 0 args.now))) }
{
    printer.put(b"emit")?;
    printer.put(b"(")?;
    print_arguments(printer, depth, args)?;
    printer.put(b")")?;
    printer.put(b";")
}

/// Prints a `give`, whatever its line.
#[tactic(auto, using(crate::proofs::PrintingPlaces::put_both))]
fn print_give(printer: &mut Printer, depth: u32, value: &Expr) -> Result<(), Memory>
    requires { ArePlaces (expr_pieces depth value.now) }
    ensures { OnOk result (printer.new ≡ put_all printer.old (statement_pieces depth (a_statement.Give 0 value.now))) }
{
    printer.put(b"give")?;
    printer.put(b"(")?;
    print_expr(printer, depth, value)?;
    printer.put(b")")?;
    printer.put(b";")
}

/// Prints a function.
fn print_function(printer: &mut Printer, function: &Function) -> Result<(), Memory>
    requires { ArePlaces (function_pieces function.now) }
    ensures { OnOk result (printer.new ≡ put_all printer.old (function_pieces function.now)) }
{
    match function {
        Function::Map {
            name,
            params,
            out,
            body,
            ..
        } => print_map(printer, name, params, out, body),
        Function::Reduce {
            name,
            key,
            streams,
            out,
            body,
            ..
        } => print_reduce(printer, name, key, streams, out, body),
        Function::Distance {
            name,
            key,
            before,
            after,
            body,
        } => print_distance(printer, name, key, before, after, body),
        Function::Partition { name, key, body } => print_partition(printer, name, key, body),
    }
}

/// Prints a map, whatever the line of its arrow.
#[tactic(auto, using(crate::proofs::PrintingPlaces::put_both))]
fn print_map(
    printer: &mut Printer,
    name: &Ident,
    params: &Items<Param>,
    out: &Row,
    body: &Block,
) -> Result<(), Memory>
    requires { ArePlaces (function_pieces (a_function.Map name.now params.now 0 out.now body.now)) }
    ensures { OnOk result (printer.new ≡ put_all printer.old (function_pieces (a_function.Map name.now params.now 0 out.now body.now))) }
{
    printer.put(b"map")?;
    name.print(printer)?;
    printer.put(b"(")?;
    print_separated(printer, params.as_slice())?;
    printer.put(b")")?;
    print_out(printer, out, body)
}

/// Prints a reduce, whatever the line of its arrow.
#[tactic(auto, using(crate::proofs::PrintingPlaces::put_both))]
fn print_reduce(
    printer: &mut Printer,
    name: &Ident,
    key: &Param,
    streams: &Items<Stream>,
    out: &Row,
    body: &Block,
) -> Result<(), Memory>
    requires { ArePlaces (function_pieces (a_function.Reduce name.now key.now streams.now 0 out.now body.now)) }
    ensures { OnOk result (printer.new ≡ put_all printer.old (function_pieces (a_function.Reduce name.now key.now streams.now 0 out.now body.now))) }
{
    printer.put(b"reduce")?;
    name.print(printer)?;
    printer.put(b"(")?;
    key.print(printer)?;
    printer.put(b";")?;
    print_separated(printer, streams.as_slice())?;
    printer.put(b")")?;
    print_out(printer, out, body)
}

/// Prints a distance.
#[tactic(auto, using(crate::proofs::PrintingPlaces::put_both))]
fn print_distance(
    printer: &mut Printer,
    name: &Ident,
    key: &Param,
    before: &Stream,
    after: &Stream,
    body: &Block,
) -> Result<(), Memory>
    requires { ArePlaces (function_pieces (a_function.Distance name.now key.now before.now after.now body.now)) }
    ensures { OnOk result (printer.new ≡ put_all printer.old (function_pieces (a_function.Distance name.now key.now before.now after.now body.now))) }
{
    printer.put(b"distance")?;
    name.print(printer)?;
    printer.put(b"(")?;
    key.print(printer)?;
    printer.put(b";")?;
    before.print(printer)?;
    printer.put(b",")?;
    after.print(printer)?;
    printer.put(b")")?;
    print_block(printer, DEPTH, body.as_slice())
}

/// Prints a partition.
#[tactic(auto, using(crate::proofs::PrintingPlaces::put_both))]
fn print_partition(
    printer: &mut Printer,
    name: &Ident,
    key: &Param,
    body: &Block,
) -> Result<(), Memory>
    requires { ArePlaces (function_pieces (a_function.Partition name.now key.now body.now)) }
    ensures { OnOk result (printer.new ≡ put_all printer.old (function_pieces (a_function.Partition name.now key.now body.now))) }
{
    printer.put(b"partition")?;
    name.print(printer)?;
    printer.put(b"(")?;
    key.print(printer)?;
    printer.put(b")")?;
    print_block(printer, DEPTH, body.as_slice())
}

/// Prints what a function emits, whatever the line of its arrow, and its body.
#[tactic(auto, using(crate::proofs::PrintingPlaces::put_both))]
fn print_out(printer: &mut Printer, out: &Row, body: &Block) -> Result<(), Memory>
    requires { ArePlaces (block_pieces 32 body.now) }
    ensures { OnOk result (printer.new ≡ put_all printer.old (out_pieces 0 out.now body.now)) }
{
    printer.put(b"->")?;
    print_kinds(printer, &out.kinds)?;
    print_block(printer, DEPTH, body.as_slice())
}

/// Prints a function as a line, from the front of a line.
fn print_line(printer: &mut Printer, function: &Function) -> Result<(), Memory>
    requires front { printer.old.1 ≡ false }
    requires spelled { ArePlaces (function_pieces function.now) }
    ensures { OnOk result (printer.new ≡ put_line printer.old (function_line function.now)) }
{
    print_function(printer, function)?;
    printer.end_line()
}

/// The text of functions, each on a line of its own, with one blank after each word that a word follows, and no
/// other blank. docs/LANGUAGE.md, "Functions".
pub fn print_functions(alloc: Global, tree: &Tree) -> Result<Vec<u8>, Memory>
    ensures { IfOk result (λ text. text.items ≡ tree_text tree.now) }
{
    let mut printer = Printer::new(alloc);
    'functions: for function in tree.as_slice() {
        print_line(&mut printer, function)?;
    }
    Ok(printer.into_text())
}
