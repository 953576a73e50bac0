ghost use Rattle.std.specs.Prelude.{◌≡◌, length, slice_get};
ghost use Rattle.nemo_transform.specs.Ports.{kinds_of};

use nemo_base::{Class, Flow, Keep, Pattern};
use nemo_transform::{PortKind, Transform};
use nemo_value::{List, NoMemory, TryCopy};
use std::alloc::Global;

/// What a vertex does. Relays and Triggers are utility vertices: they have one Main port and pass its rows on.
#[derive(Clone, Copy)]
pub enum VertexKind {
    /// The transform at this place of the flat job's table. Where none stands there, the vertex has no ports.
    Op(u32),
    Relay,
    /// It has the keys counted by which a consumer's cuts are decided.
    Trigger,
}

/// A vertex of a DAG. It has as many tasks as its parallelism says.
#[derive(Clone, Copy)]
pub struct IrVertex {
    pub kind: VertexKind,
    pub class: Class,
    pub parallelism: u32,
}

/// An edge of a DAG, into a port of a vertex.
#[derive(Clone, Copy)]
pub struct IrEdge {
    pub from: u32,
    pub to: u32,
    pub port: u32,
    pub pattern: Pattern,
    pub flow: Flow,
    pub keep: Keep,
}

/// A DAG as it was proposed for a flat job, which may be anything.
#[derive(Drop)]
pub struct IrDag {
    pub vertices: List<IrVertex>,
    pub edges: List<IrEdge>,
    /// For each flat vertex the vertex that stands for it.
    pub rep: List<u32>,
}

impl VertexKind {
    ghost use Rattle.nemo_ir.specs.Nodes as spec;

    /// Whether it is a Relay or a Trigger.
    pub fn is_utility(self) -> bool
        ensures { result ≡ spec.is_utility self }
    {
        match self {
            VertexKind::Op(_) => false,
            VertexKind::Relay | VertexKind::Trigger => true,
        }
    }
}

impl IrVertex {
    ghost use Rattle.nemo_ir.specs.Nodes.{deed_of, kinds_in};

    /// The kind of its port `k`, counted from 0, if there is one, where these are the transforms of the flat job.
    pub fn port(&self, transforms: &[Transform], k: u32) -> Option<PortKind>
        ensures { result ≡ slice_get (kinds_in (deed_of transforms.now self.now.kind)) k }
    {
        match self.kind {
            VertexKind::Op(number) => transforms.get(number as usize)?.port(k),
            VertexKind::Relay | VertexKind::Trigger => (k == 0).then_some(PortKind::Main),
        }
    }

    /// How many ports it has.
    pub fn port_count(&self, transforms: &[Transform]) -> u32
        ensures { result ≡ length (kinds_in (deed_of transforms.now self.now.kind)) }
    {
        match self.kind {
            VertexKind::Op(number) => match transforms.get(number as usize) {
                Some(transform) => ports_of(transform),
                None => 0,
            },
            VertexKind::Relay | VertexKind::Trigger => 1,
        }
    }
}

fn ports_of(transform: &Transform) -> u32
    ensures { result ≡ length (kinds_of transform.now) }
{
    match transform {
        Transform::Source { .. } => 0,
        Transform::Map { .. }
        | Transform::Filter { .. }
        | Transform::Emit { .. }
        | Transform::Words { .. }
        | Transform::Reduce { .. }
        | Transform::Distinct
        | Transform::Sink { .. } => 1,
        Transform::Join | Transform::SideJoin => 2,
        Transform::Union { ports } => *ports,
    }
}

impl TryCopy for IrVertex {
    fn copy(&self, _alloc: Global) -> Result<IrVertex, NoMemory> {
        Ok(*self)
    }
}

impl TryCopy for IrEdge {
    fn copy(&self, _alloc: Global) -> Result<IrEdge, NoMemory> {
        Ok(*self)
    }
}

impl TryCopy for IrDag {
    fn copy(&self, alloc: Global) -> Result<IrDag, NoMemory> {
        Ok(IrDag {
            vertices: self.vertices.copy(alloc)?,
            edges: self.edges.copy(alloc)?,
            rep: self.rep.copy(alloc)?,
        })
    }
}
