//! The gate, with the table of a heap's words.
ghost use Rattle.std.specs.Prelude.{◌≡◌};
ghost use Rattle.heap_words.specs.Map.{IsAreas, total_of};

use crate::rule::{Law, View};
use atomic_table::Table;
use heap_words::Areas;
use std::alloc::Global;

/// The words of a heap, which threads share by their seats. Word 0 is the gate.
#[derive(Drop)]
pub struct Gate {
    pub(crate) table: Table<(), View, Areas, Law, Global>,
    pub(crate) map: Areas,
    ghost keyed: { table.shared.key ≡ map },
    ghost areas: { IsAreas map },
    ghost wide: { table.shared.table_id.words ≡ total_of map },
}

impl Gate {
    /// The map of the words.
    pub fn map(&self) -> Areas
        ensures { result ≡ self.now.map }
    {
        self.map
    }
}
