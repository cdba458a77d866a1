//! The spaces of objects, in a list beside a graph.
ghost use Rattle.std.specs.Prelude.{◌≡◌, ◌≤◌, ◌<◌, IfOk};
ghost use Rattle.std.specs.FinMap.{from_entries};
ghost use Rattle.yak_model.specs.declared.datum.Datum.TheVariants as datum;
ghost use Rattle.yak_model.specs.Graph.{Fields, IsThread, fields_at, next_name, thread_of};
ghost use Rattle.yak_model.specs.Spaces.{innermost};
ghost use Rattle.yak_model.specs.Machine.{contents_of, homes_of, kept_of};

use crate::datum::Datum;
use crate::graph::{GraphState, ObjectMap};
use crate::spaces::KeptObject;
use epoch_lattice::{MAX_DEPTH, MAX_THREADS, Space, inner};
use object_layout::{MAX_SERIAL, Name};
use std::alloc::{AllocError, Global};

/// An object and the space in which it is.
#[derive(Clone, Copy, Debug, Drop)]
pub struct Home {
    pub name: Name,
    pub space: Space,
}

/// A copy of a list of fields.
fn copied(alloc: Global, fields: &[Datum]) -> Result<Vec<Datum>, AllocError>
    ensures { IfOk result (λ copy. copy.items ≡ fields.now) }
{
    let mut copy = Vec::new(alloc);
    copy.extend_from_slice(fields)?;
    Ok(copy)
}

/// The present object of a home.
fn kept_object(alloc: Global, graph: &GraphState, home: Home) -> Result<KeptObject, AllocError>
    ensures { IfOk result (λ kept. kept ≡ record { name = home.name; home = home.space; content = Fields (fields_at graph.now (datum.Object home.name)) }) }
{
    let fields = copied(alloc, graph.fields_at(Datum::Object(home.name)))?;
    Ok(KeptObject::new(home.name, home.space, fields))
}

/// The present objects of a graph.
pub(crate) fn kept_objects(
    alloc: Global,
    graph: &GraphState,
    homes: &[Home],
) -> Result<Vec<KeptObject>, AllocError>
    ensures { IfOk result (λ objects. objects.items ≡ kept_of graph.now homes.now) }
{
    let mut objects = Vec::new(alloc);
    for home in homes {
        objects.push(kept_object(alloc, graph, *home)?)?;
    }
    Ok(objects)
}

/// The homes of objects.
pub(crate) fn homes_of(alloc: Global, objects: &[KeptObject]) -> Result<Vec<Home>, AllocError>
    ensures { IfOk result (λ homes. homes.items ≡ homes_of objects.now) }
{
    let mut homes = Vec::new(alloc);
    for kept in objects {
        homes.push(Home {
            name: kept.name(),
            space: kept.home(),
        })?;
    }
    Ok(homes)
}

/// The objects as the graph keeps them.
pub(crate) fn object_map(alloc: Global, objects: &[KeptObject]) -> Result<ObjectMap, AllocError>
    ensures { IfOk result (λ held. held ≡ from_entries (contents_of objects.now)) }
{
    let mut held = ObjectMap::new(alloc);
    let mut i = objects.len();
    while i > 0 {
        i -= 1;
        let kept = &objects[i];
        held.put(kept.name(), copied(alloc, kept.fields())?)?;
    }
    Ok(held)
}

/// The home of the next object of a thread.
pub(crate) fn next_home(graph: &GraphState, thread: u8) -> Home
    requires thread { IsThread graph.now thread }
    requires last { thread ≤ MAX_THREADS }
    requires depth { (thread_of graph.now thread).depth ≤ MAX_DEPTH }
    requires room { (thread_of graph.now thread).made < MAX_SERIAL }
    ensures { result ≡ record { name = next_name graph.now thread; space = innermost graph.now thread } }
{
    let serial = graph.made_by(thread) + 1;
    Home {
        name: Name { thread, serial },
        space: inner(thread, graph.depth_of(thread)),
    }
}
