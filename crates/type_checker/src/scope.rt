ghost use Rattle.std.specs.Prelude.{◌≡◌, IfOk};
ghost use Rattle.type_checker.specs.Scopes as scopes;
ghost use Rattle.type_checker.specs.Scopes.{declared, value_of_kind};
ghost use Rattle.type_checker.specs.steps.Checks.{Leaves};

use crate::fault::TypeFault;
use hal_base::{CopyIn, Items, Kind, Memory, Text};
use name_index::{Named, NamedItems};
use program_tokens::Ident;
use std::alloc::Global;

/// A parameter or a variable in scope. A `variable` is one of a `let`, which `set` may change.
#[derive(Drop)]
pub struct Known {
    pub name: Text,
    pub kind: Kind,
    pub variable: bool,
}

impl Named for Known {
    ghost use Rattle.type_checker.specs.Scopes.{known_name};

    ghost name = { known_name };

    fn name(&self) -> &Text {
        &self.name
    }
}

/// A stream of a function, and the kinds of its fields.
#[derive(Drop)]
pub struct KnownStream {
    pub name: Text,
    pub kinds: Items<Kind>,
}

impl Named for KnownStream {
    ghost use Rattle.type_checker.specs.Scopes.{stream_name};

    ghost name = { stream_name };

    fn name(&self) -> &Text {
        &self.name
    }
}

/// The parameters and variables in scope, in the order in which they were declared.
pub type Scope = NamedItems<Known>;

/// The streams of a function.
pub type KnownStreams = NamedItems<KnownStream>;

/// What stands still while a function is checked: its number, whether `round` may stand in it, the kinds
/// of the records that it emits (none where it gives a number), and its streams.
#[derive(Drop)]
pub struct Setting {
    pub function: u64,
    pub has_round: bool,
    pub out: Option<Items<Kind>>,
    pub streams: KnownStreams,
}

/// Whether a parameter, a variable or a stream has this name.
pub fn is_taken(name: &[u8], scope: &Scope, streams: &KnownStreams) -> bool
    ensures { result ≡ scopes.is_taken name.now scope.now streams.now }
{
    scope.find(name).is_some() || streams.find(name).is_some()
}

/// A parameter or a variable of this name.
pub fn value_of(alloc: Global, ident: &Ident, kind: Kind, variable: bool) -> Result<Known, Memory>
    ensures { IfOk result (λ value. value ≡ value_of_kind ident.now kind variable) }
{
    Ok(Known {
        name: ident.text.copy(alloc)?,
        kind,
        variable,
    })
}

/// Adds a parameter or a variable, whose name must be free. docs/LANGUAGE.md, "Kinds and scopes".
pub fn declare(
    alloc: Global,
    setting: &Setting,
    scope: &mut Scope,
    ident: &Ident,
    kind: Kind,
    variable: bool,
) -> Result<(), TypeFault>
    ensures { Leaves (declared setting.now scope.old ident.now kind variable) result scope.new }
{
    if is_taken(ident.text.as_slice(), scope, &setting.streams) {
        return Err(TypeFault::DoubleName {
            function: setting.function,
            line: ident.line,
        });
    }
    scope.push(alloc, value_of(alloc, ident, kind, variable)?)?;
    Ok(())
}
