ghost use Rattle.std.specs.Prelude.{◌≡◌, List as Sequence, [], ◌∷◌, ◌++◌, map, IfOk, OnOk};
ghost use Rattle.nemo_job.specs.NamesBound.{HasNames};
ghost use Rattle.nemo_job.specs.Unrolled as spec;
ghost use Rattle.nemo_job.specs.Unrolled.{Bound, source_of};

use crate::copies::one_port;
use crate::vertex::Ref;
use indexmap::IndexMap;
use nemo_value::{List, Name, NoMemory};
use std::alloc::Global;

/// The names that stand in a list so far, in order of first sight, each with the copies that its ports stand for.
/// Of two of a name the first stays.
#[derive(Drop)]
pub(crate) struct Names<'a> {
    ports: IndexMap<&'a str, List<Option<usize>>>,
}

impl<'a> Names<'a> {
    pub(crate) fn new(alloc: Global) -> Names<'a>
        ensures { HasNames [] result }
    {
        Names {
            ports: IndexMap::new(alloc),
        }
    }

    /// The ports of a turn under their names.
    pub(crate) fn bound(
        alloc: Global,
        ports: &[Option<usize>],
        carry: &'a [Name],
    ) -> Result<Names<'a>, NoMemory>
        ensures { IfOk result (HasNames (spec.bound ports.now carry.now)) }
    {
        let mut names = Names::new(alloc);
        for (port, name) in ports.iter().zip(carry) {
            names.bind_port(alloc, name, *port)?;
        }
        Ok(names)
    }

    /// The name of a port of a turn.
    fn bind_port(
        &mut self,
        alloc: Global,
        name: &'a Name,
        port: Option<usize>,
    ) -> Result<(), NoMemory>
        ensures { OnOk result ((bs : Sequence Bound) → HasNames bs self.old → HasNames (bs ++ record { name = name.now; ports = port ∷ [] } ∷ []) self.new) }
    {
        let ports = one_port(alloc, port)?;
        self.bind(name.as_str(), ports)
    }

    /// One name more.
    pub(crate) fn bind(&mut self, name: &'a str, ports: List<Option<usize>>) -> Result<(), NoMemory>
        ensures { OnOk result ((bs : Sequence Bound) → HasNames bs self.old → HasNames (bs ++ record { name = name.now; ports = ports } ∷ []) self.new) }
    {
        self.ports.entry(name)?.or_insert(ports);
        Ok(())
    }

    /// The copies that some references name.
    pub(crate) fn sources(
        &self,
        alloc: Global,
        refs: &[Ref],
    ) -> Result<List<Option<usize>>, NoMemory>
        ensures { IfOk result (λ ports. (bs : Sequence Bound) → HasNames bs self.now → ports ≡ map (source_of bs) refs.now) }
    {
        let mut ports = List::with_capacity(alloc, refs.len())?;
        for r in refs {
            ports.push(self.source(r))?;
        }
        Ok(ports)
    }

    /// The copy that a reference names.
    fn source(&self, r: &Ref) -> Option<usize>
        ensures { (bs : Sequence Bound) → HasNames bs self.now → result ≡ source_of bs r.now }
    {
        let ports = self.ports.get(r.name.as_str())?;
        ports.get(r.port as usize).copied().flatten()
    }
}
