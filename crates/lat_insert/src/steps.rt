//! One step of a lattice.

ghost use Rattle.std.specs.Prelude.{◌≡◌, Ok, IfOk, OnErr};
ghost use Rattle.alg_model.specs.Lattices.{Grows, IsCompatible};
ghost use Rattle.lat_core.specs.Step.{IsProperRequest, Steps};
ghost use Rattle.lat_core.specs.declared.replies.StepRefusal.{StepRefusal};
ghost use Rattle.lat_core.specs.declared.replies.Reply.TheVariants.{Refused};
ghost use Rattle.lat_insert.specs.Insertions.{StepAdds};

use crate::declaring::declare;
use crate::embedding::embed;
use lat_core::{Lattice, NoMemory, Reply, Request};

/// Does what is requested of the lattice, and answers it.
///
/// Requires that a field is declared under a declared name. After a refusal, or where `NoMemory` is
/// answered, the lattice is as it was. `NoMemory` is answered only where a field would be declared that
/// isn't there already, or an embedding would add maps.
pub fn step(lattice: &mut Lattice, request: &Request) -> Result<Reply, NoMemory>
    requires proper { IsProperRequest request.now }
    ensures step { IfOk result (λ reply. Steps lattice.old request.now reply lattice.new) }
    ensures kept { OnErr result (lattice.new ≡ lattice.old) }
    ensures compatible { IsCompatible lattice.new }
    ensures grows { Grows lattice.old lattice.new }
    ensures refused { (refusal : StepRefusal) → result ≡ Ok (Refused refusal)
        → lattice.new ≡ lattice.old }
    ensures no_memory { OnErr result (StepAdds lattice.old request.now) }
{
    let _edition = lattice.edition();
    match request {
        Request::Declare { name, p, poly } => declare(lattice, name, *p, poly),
        Request::Embed {
            from,
            into,
            sending,
        } => embed(lattice, from, into, sending),
        Request::Sync => Ok(Reply::Synced),
    }
}
