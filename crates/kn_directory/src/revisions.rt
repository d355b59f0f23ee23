//! The revisions of one server.
ghost use Rattle.std.specs.Prelude.{◌≡◌, IfOk, IfSome, IfNone};
ghost use Rattle.kn_directory.specs.Names.{IsFirstNamed, NoneHasName};

use crate::directory::Directory;
use kn_event::{Memory, Spec};
use std::alloc::Global;
use std::marker::Model;

/// The specifications of the revisions of one server, in the setups' order, each to be found by its name. Contracts see the
/// specifications.
pub struct Revisions {
    specs: Vec<Spec>,
    names: Directory,
}

impl Drop for Revisions {
    fn drop(self) {
        let Revisions { specs: _, names: _ } = self;
    }
}

impl Model for Revisions {
    ghost use Rattle.std.specs.Prelude.{List};
    ghost use Rattle.kn_event.specs.declared.revision.Spec.{Spec};
    ghost use Rattle.kn_directory.specs.Places.{Finds};

    ghost Value = { List Spec };

    ghost view = { λ r. r.specs.items };

    ghost invariant = { λ r. Finds r.names r.specs.items };
}

impl Revisions {
    /// The revisions of these specifications. All memory that they will ever have is taken here.
    pub fn new(alloc: Global, specs: Vec<Spec>) -> Result<Revisions, Memory>
        ensures { IfOk result (λ r. r ≡ specs.items) }
    {
        let names = Directory::of(alloc, &specs)?;
        Ok(Revisions { specs, names })
    }

    /// The specifications.
    pub fn as_slice(&self) -> &[Spec]
        ensures { result.now ≡ self.now }
    {
        &self.specs
    }

    /// The first revision that has this name. No memory is taken.
    pub fn named(&self, namespace: &[u8], name: &[u8]) -> Option<usize>
        ensures some { IfSome result (λ v. IsFirstNamed self.now v namespace.now name.now) }
        ensures none { IfNone result (NoneHasName self.now namespace.now name.now) }
    {
        self.names.named(&self.specs, namespace, name)
    }
}
