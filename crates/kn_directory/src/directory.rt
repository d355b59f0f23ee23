//! Names with the places of revisions.
ghost use Rattle.std.specs.Prelude.{◌≡◌, ◌++◌, ◌&&◌, IfOk, IfSome, IfNone, bytes_eq};
ghost use Rattle.std.specs.Hash as fed;
ghost use Rattle.std.proofs.lemmas.Bool.{and_parts};
ghost use Rattle.std.proofs.lemmas.Slice.Eq.{bytes_eq-Decides};
ghost use Rattle.kn_directory.specs.Names.{IsFirstNamed, NoneHasName};
ghost use Rattle.kn_directory.specs.Places.{Finds, place_at_name, with_place};

use indexmap::{Equivalent, IndexMap};
use kn_event::{Memory, Spec};
use std::alloc::Global;
use std::marker::Model;

/// The namespace and the name of a revision.
#[derive(PartialEq, Eq, Hash, Drop)]
struct Key {
    namespace: Vec<u8>,
    name: Vec<u8>,
}

/// The same, borrowed, so that a look-up takes no memory. It feeds a hasher what a `Key` does.
#[derive(Clone, Copy, PartialEq, Eq, Hash)]
struct Asked<'a> {
    namespace: &'a [u8],
    name: &'a [u8],
}

impl<'a> Equivalent<Key> for Asked<'a> {
    ghost equivalent = { λ q k. bytes_eq q.namespace.now k.namespace.items && bytes_eq q.name.now k.name.items };

    ghost respects_hash = { λ q k h i. fed.slice fed.u8 ((bytes_eq-Decides q.namespace.now k.namespace.items).0 (and_parts _ _ h).0 i)
        ++ fed.slice fed.u8 ((bytes_eq-Decides q.name.now k.name.items).0 (and_parts _ _ h).1 i) };

    ghost respects_eq = { λ q x y h i. bytes_eq ((bytes_eq-Decides q.namespace.now x.namespace.items).0 (and_parts _ _ h).0 i) y.namespace.items
        && bytes_eq ((bytes_eq-Decides q.name.now x.name.items).0 (and_parts _ _ h).1 i) y.name.items };

    fn equivalent(&self, key: &Key) -> bool {
        self.namespace == key.namespace.as_slice() && self.name == key.name.as_slice()
    }
}

/// The place of each revision among the setups. Contracts see the names with their places, in that order.
#[derive(Drop)]
pub struct Directory {
    places: IndexMap<Key, usize>,
}

impl Model for Directory {
    ghost use Rattle.std.specs.Prelude.{ℕ, List, map};
    ghost use Rattle.kn_directory.specs.Places.{named_entry};

    ghost Value = { List ((List ℕ × List ℕ) × ℕ) };

    ghost view = { λ d. map named_entry d.places.entries };
}

impl Directory {
    /// The names of the specifications, each with the place of the first that has it.
    pub fn of(alloc: Global, specs: &[Spec]) -> Result<Directory, Memory>
        ensures { IfOk result (λ d. Finds d specs.now) }
    {
        let mut made = Directory {
            places: IndexMap::new(alloc),
        };
        for v in 0..specs.len() {
            let spec = &specs[v];
            made.enter(alloc, spec.namespace.bytes(), spec.name.bytes(), v)?;
        }
        Ok(made)
    }

    /// Enters a place, where none stands at its name.
    fn enter(
        &mut self,
        alloc: Global,
        namespace: &[u8],
        name: &[u8],
        v: usize,
    ) -> Result<(), Memory>
        ensures { IfOk result (λ _. self.new ≡ with_place self.old namespace.now name.now v) }
    {
        if self.place(namespace, name).is_some() {
            return Ok(());
        }
        let Ok(namespace) = Vec::from_slice(alloc, namespace) else {
            return Err(Memory);
        };
        let Ok(name) = Vec::from_slice(alloc, name) else {
            return Err(Memory);
        };
        let Ok(_) = self.places.insert(Key { namespace, name }, v) else {
            return Err(Memory);
        };
        Ok(())
    }

    /// The place that stands at a name. No memory is taken.
    fn place(&self, namespace: &[u8], name: &[u8]) -> Option<usize>
        ensures { result ≡ place_at_name self.now namespace.now name.now }
    {
        self.places.get(Asked { namespace, name }).copied()
    }

    /// The first of these specifications that has this name. No memory is taken.
    pub fn named(&self, specs: &[Spec], namespace: &[u8], name: &[u8]) -> Option<usize>
        requires { Finds self.now specs.now }
        ensures some { IfSome result (λ v. IsFirstNamed specs.now v namespace.now name.now) }
        ensures none { IfNone result (NoneHasName specs.now namespace.now name.now) }
    {
        self.place(namespace, name)
    }
}
