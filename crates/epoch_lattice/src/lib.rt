//! The spaces of a heap, their join and their numbers.
#![tactic(auto)]

ghost use Rattle.std.specs.Prelude.{◌≡◌, ◌<◌, ◌≤◌, ◌↔◌, ◌*◌, ◌+◌, IsTrue, ℕ, Some, MatchOption};
ghost use Rattle.epoch_lattice.specs.Lattice.{AreLawful, AreNumbered, IsBelow, IsValid, join_of, inner_of, parent_of, space_index, space_of};

/// The greatest depth of a thread: how many epochs it may have open at once.
pub const MAX_DEPTH: u8 = 8;
/// The greatest number of threads of a heap.
pub const MAX_THREADS: u8 = 8;

/// Where an object stands: in the control space, or in the region of an epoch of a thread.
#[derive(Clone, Copy, Debug, PartialEq, Eq, Drop)]
pub enum Space {
    /// The space that is collected by tracing, and that outlives all regions.
    Control,
    /// The region of the epoch of a thread at a depth, both from 1.
    Region { thread: u8, depth: u8 },
}

/// The least space that outlives both.
pub fn join(a: Space, b: Space) -> Space
    ensures join { result ≡ join_of a b }
    ensures valid { IsValid MAX_DEPTH a → IsValid MAX_DEPTH b → IsValid MAX_DEPTH result }
{
    match (a, b) {
        (
            Space::Region { thread, depth },
            Space::Region {
                thread: other,
                depth: further,
            },
        ) => {
            if thread == other {
                Space::Region {
                    thread,
                    depth: if depth < further { depth } else { further },
                }
            } else {
                Space::Control
            }
        }
        _ => Space::Control,
    }
}

/// Whether the second space outlives the first or is the first.
pub fn below(a: Space, b: Space) -> bool
    ensures { IsTrue result ↔ IsBelow a b }
{
    join(a, b) == b
}

/// The space around a region. The control space is its own.
pub fn parent(a: Space) -> Space
    requires { IsValid MAX_DEPTH a }
    ensures parent { result ≡ parent_of a }
    ensures valid { IsValid MAX_DEPTH result }
{
    match a {
        Space::Control => Space::Control,
        Space::Region { thread, depth } => {
            if depth == 1 {
                Space::Control
            } else {
                Space::Region {
                    thread,
                    depth: depth - 1,
                }
            }
        }
    }
}

/// The innermost space of a thread of this depth.
pub fn inner(thread: u8, depth: u8) -> Space
    requires first { 1 ≤ thread }
    requires last { thread ≤ MAX_THREADS }
    requires depth { depth ≤ MAX_DEPTH }
    ensures inner { result ≡ inner_of thread depth }
    ensures valid { IsValid MAX_DEPTH result }
{
    if depth == 0 {
        Space::Control
    } else {
        Space::Region { thread, depth }
    }
}

/// The number of a space. `docs/FORMAT.md` has the table.
pub fn index_of(a: Space) -> u8
    requires { IsValid MAX_DEPTH a }
    ensures index { result ≡ space_index a }
    ensures read_back { space_of result ≡ Some a }
    ensures most { result ≤ MAX_THREADS * MAX_DEPTH }
{
    match a {
        Space::Control => 0,
        Space::Region { thread, depth } => MAX_DEPTH * (thread - 1) + depth,
    }
}

/// The space of a number, or `None` past the number of the last region.
pub fn space_at(index: u8) -> Option<Space>
    ensures space { result ≡ space_of index }
    ensures exact { MatchOption result (MAX_THREADS * MAX_DEPTH < index) (λ a. IsValid MAX_DEPTH a × (space_index a ≡ index)) }
{
    if index > MAX_THREADS * MAX_DEPTH {
        None
    } else if index == 0 {
        Some(Space::Control)
    } else {
        Some(Space::Region {
            thread: 1 + (index - 1) / MAX_DEPTH,
            depth: 1 + (index - 1) % MAX_DEPTH,
        })
    }
}

/// The join is that of a semilattice, the control space is its top, and chains are short.
pub fn laws()
    ensures { AreLawful }
{}

/// Each space has a number of its own.
pub fn numbering()
    ensures { AreNumbered }
{}
