use hal_base::Text;
use operations::Operation;
use sqlite_items::Items;

/// An expression with slots in place of names.
#[cycle(slot_expr)]
#[derive(Drop)]
pub(crate) enum ResolvedExpr {
    Int(i64),
    Text(Text),
    Round,
    Slot(usize),
    Call(Operation, Items<ResolvedExpr>),
    /// An expression without a value, as a name that is not known.
    Unresolved,
}

/// A statement with slots in place of names. A `stream` is the number of a stream of the function, and
/// `fields` is how many names a loop has.
#[cycle(slot_statement)]
#[derive(Drop)]
pub(crate) enum ResolvedStatement {
    Let(ResolvedExpr),
    Set(usize, ResolvedExpr),
    If {
        test: ResolvedExpr,
        yes: Items<ResolvedStatement>,
        no: Items<ResolvedStatement>,
    },
    For {
        stream: usize,
        fields: usize,
        body: Items<ResolvedStatement>,
    },
    Emit(Items<ResolvedExpr>),
    Give(ResolvedExpr),
    /// A statement that nothing can be done by, as a loop over a stream that is not known.
    Unresolved,
}

/// A function with slots in place of names: so many parameters or streams, and its body.
#[derive(Drop)]
pub(crate) enum ResolvedFunction {
    Map {
        params: usize,
        body: Items<ResolvedStatement>,
    },
    Reduce {
        streams: usize,
        body: Items<ResolvedStatement>,
    },
    Distance {
        body: Items<ResolvedStatement>,
    },
    Partition {
        body: Items<ResolvedStatement>,
    },
}
