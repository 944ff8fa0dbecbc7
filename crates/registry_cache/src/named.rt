//! What is shared, with its name.

ghost use Rattle.std.specs.Prelude.{◌≡◌, List, ℕ, IfOk};
ghost use Rattle.registry_names.specs.Texts.{is};

use crate::shared::Shared;
use registry_names::Text;
use std::alloc::{AllocError, Global};
use std::marker::Model;

/// What is shared and the name that it is kept under. Contracts see the bytes of both.
#[derive(Drop)]
pub(crate) struct Named<V: Shared> {
    name: Text,
    value: V,
}

impl<V: Shared> Model for Named<V> {
    ghost Value = { List ℕ × List ℕ };

    ghost view = { λ n. (n.name, V.bytes n.value) };
}

impl<V: Shared> Named<V> {
    /// The value under a copy of the name.
    ///
    /// An error is returned where no memory is left for that.
    pub(crate) fn new(alloc: Global, name: &str, value: V) -> Result<Named<V>, AllocError>
        ensures { IfOk result (λ n. n ≡ (name.now, V.bytes value)) }
    {
        let name = Text::from_str(alloc, name)?;
        Ok(Named { name, value })
    }

    /// Its name.
    pub(crate) fn name(&self) -> &str
        ensures { result.now ≡ self.now.0 }
    {
        self.name.as_str()
    }

    /// Whether this is its name.
    #[tactic(auto, unfolding(registry_names::specs::Texts::is))]
    pub(crate) fn has_name(&self, name: &str) -> bool
        ensures { result ≡ is self.now.0 name.now }
    {
        self.name.as_str() == name
    }

    /// The value.
    pub(crate) fn value(&self) -> &V
        ensures { V.bytes result.now ≡ self.now.1 }
    {
        &self.value
    }
}
