use nemo_transform::Transform;
use nemo_value::{List, NoMemory, Text, TryCopy};
use std::alloc::Global;
use std::marker::Model;

/// A vertex of a flat job: a copy of a job's vertex, named by its path.
#[derive(Drop)]
pub struct FlatVertex {
    pub name: Text,
    /// The place of its transform in the job's table.
    pub transform: u32,
    /// The vertices that its ports take, port by port.
    pub inputs: List<u32>,
}

/// A flat job: the copies of a job's vertices in the order of evaluation, and the transforms that they share. It has 1
/// to 512 vertices of sound transforms, as many inputs at each as its transform has ports, inputs of lower numbers that
/// are no sinks, no vertex that reaches no sink, and no two sinks of one name.
#[derive(Drop)]
pub struct FlatJob {
    pub transforms: List<Transform>,
    pub vertices: List<FlatVertex>,
}

impl Model for FlatJob {
    ghost use Rattle.std.specs.Coded.{codes};
    ghost use Rattle.nemo_value.specs.contracts.expr.Expr as expr;
    ghost use Rattle.nemo_ir.specs.Flat.{FlatForm, IsFlat};

    ghost Value = { FlatForm };

    ghost coded = { Prim.hlevel (codes, expr.the_row.coded) };

    ghost view = { λ f. record { transforms = f.transforms; vertices = f.vertices } };

    ghost invariant = { λ f. IsFlat (record { transforms = f.transforms; vertices = f.vertices }) };
}

impl TryCopy for FlatVertex {
    fn copy(&self, alloc: Global) -> Result<FlatVertex, NoMemory> {
        Ok(FlatVertex {
            name: self.name.copy(alloc)?,
            transform: self.transform,
            inputs: self.inputs.copy(alloc)?,
        })
    }
}

impl TryCopy for FlatJob {
    fn copy(&self, alloc: Global) -> Result<FlatJob, NoMemory> {
        Ok(FlatJob {
            transforms: self.transforms.copy(alloc)?,
            vertices: self.vertices.copy(alloc)?,
        })
    }
}
