// Which children of open nodes are still to come.
ghost use Rattle.std.specs.Prelude.{◌≡◌, ℕ, List, [], ◌∷◌, reverse, length, OnOk};
ghost use Rattle.writing.specs.Awaits.{after_tree, completes};

use std::alloc::{AllocError, Global};
use std::marker::Model;

/// How many children each open node still awaits. Contracts see the innermost first; it stands last.
#[derive(Drop)]
pub(crate) struct Awaited {
    counts: Vec<u8>,
}

impl Model for Awaited {
    ghost Value = { List ℕ };

    ghost view = { λ awaited. reverse awaited.counts.items };
}

impl Awaited {
    pub(crate) fn new(heap: Global) -> Awaited
        ensures { result ≡ [] }
    {
        Awaited {
            counts: Vec::new(heap),
        }
    }

    /// How many nodes are open.
    pub(crate) fn depth(&self) -> usize
        ensures { result ≡ length self.now }
    {
        self.counts.len()
    }

    /// A node opens that has so many children.
    pub(crate) fn await_children(&mut self, children: u8) -> Result<(), AllocError>
        ensures { OnOk result (self.new ≡ children ∷ self.old) }
    {
        self.counts.push(children)?;
        Ok(())
    }

    /// A tree is complete. Gives how many nodes it completes.
    pub(crate) fn complete(&mut self) -> usize
        ensures after { self.new ≡ after_tree self.old }
        ensures value { result ≡ completes self.old }
    {
        let mut completed = 0;
        while self.counts.pop_if(|count| *count <= 1).is_some() {
            completed += 1;
        }
        if let Some(count) = self.counts.last_mut() {
            *count -= 1;
        }
        completed
    }
}
