ghost use Rattle.std.specs.Prelude.{◌≡◌, Bool};
ghost use Rattle.node_names.specs.declared.name.Name.{Name as AnyName};

use node_names::Name;

/// A test of names.
pub trait NameTest {
    ghost test: { Self → AnyName → Bool };

    /// Whether the name passes.
    fn passes(&self, name: &Name) -> bool
        ensures { result ≡ test self.now name.now };
}
