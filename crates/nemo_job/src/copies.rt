ghost use Rattle.std.specs.Prelude.{◌≡◌, ◌≤◌, [], ◌∷◌, length, map, string_bytes, unwrap_or, IfOk, OnOk};

use nemo_transform::Transform;
use nemo_value::{List, NoMemory};
use std::alloc::Global;

/// An operation of a job in one turn of each loop around it: its path, its number among the operations, its transform,
/// and the places of the copies that its ports take.
#[derive(Drop)]
pub struct Node<'a> {
    pub path: String,
    pub number: usize,
    pub transform: &'a Transform,
    pub inputs: List<usize>,
}

/// The copies so far, and the number of the next operation.
#[derive(Drop)]
pub(crate) struct Copies<'a> {
    pub(crate) nodes: Vec<Node<'a>>,
    pub(crate) next: usize,
    ghost counted: { next ≤ length nodes.items },
}

impl<'a> Copies<'a> {
    ghost use Rattle.nemo_job.specs.NamesBound.{IsGrown, copies_of, fed};
    ghost use Rattle.nemo_job.specs.Unrolled.{at_start, copied};

    pub(crate) fn new(alloc: Global) -> Copies<'a>
        ensures { copies_of result ≡ at_start.copies }
    {
        Copies {
            nodes: Vec::new(alloc),
            next: 0,
        }
    }

    /// One copy more, and what its port stands for.
    pub(crate) fn push(
        &mut self,
        alloc: Global,
        path: String,
        transform: &'a Transform,
        ports: List<Option<usize>>,
    ) -> Result<List<Option<usize>>, NoMemory>
        ensures given { IfOk result (λ given. fed self.new given ≡ copied (string_bytes path) transform.now (fed self.old ports)) }
        ensures grown { OnOk result (IsGrown self.old self.new) }
    {
        let place = self.nodes.len();
        let inputs = inputs_of(alloc, ports.as_slice(), place)?;
        let own = one_port(alloc, Some(place))?;
        self.nodes.push(Node {
            path,
            number: self.next,
            transform,
            inputs,
        })?;
        self.next += 1;
        Ok(own)
    }
}

/// One port, which stands for this copy.
pub(crate) fn one_port(alloc: Global, port: Option<usize>) -> Result<List<Option<usize>>, NoMemory>
    ensures { IfOk result (λ ports. ports ≡ port ∷ []) }
{
    let mut ports = List::with_capacity(alloc, 1)?;
    ports.push(port)?;
    Ok(ports)
}

/// The copies that the ports of the copy of a place take; one that takes none has the place itself.
fn inputs_of(alloc: Global, ports: &[Option<usize>], place: usize) -> Result<List<usize>, NoMemory>
    ensures { IfOk result (λ inputs. inputs ≡ map (λ p. unwrap_or p place) ports.now) }
{
    let mut inputs = List::with_capacity(alloc, ports.len())?;
    for port in ports {
        inputs.push(port.unwrap_or(place))?;
    }
    Ok(inputs)
}
