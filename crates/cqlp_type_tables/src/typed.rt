//! What has a type.

ghost use Rattle.std.specs.Prelude.{◌≡◌};
ghost use Rattle.cqlp_type.specs.declared.tree.TypeTree.{TypeTree as Tree};

use cqlp_message::Spec;
use cqlp_type::TypeTree;

/// What has a type.
pub(crate) trait HasType {
    /// The type that it has.
    ghost type_of: { Self → Tree };

    fn tree(&self) -> &TypeTree
        ensures { result.now ≡ type_of self.now };
}

impl HasType for TypeTree {
    ghost type_of = { λ t. t };

    fn tree(&self) -> &TypeTree {
        self
    }
}

impl HasType for Spec {
    ghost type_of = { λ s. s.tree };

    fn tree(&self) -> &TypeTree {
        &self.tree
    }
}
