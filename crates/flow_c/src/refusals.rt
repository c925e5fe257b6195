//! Why there is no answer.
ghost use Rattle.std.specs.Prelude.{◌≡◌};
ghost use Rattle.flow_c.specs.Refusals.{status_number};
ghost use Rattle.flow_c.specs.declared.refusals.Refusal.TheVariants.{Memory};

use flow_net::OutOfMemory;

/// Why there is no answer.
#[derive(Clone, Copy)]
pub enum Refusal {
    /// Too few or too many nodes.
    Nodes,
    /// Too many arcs, or lists of different lengths.
    Lengths,
    /// An end of an arc is no node.
    BadEnd,
    /// A terminal is no node, stands there twice, or is missing.
    Terminal,
    /// Memory was refused.
    Memory,
}

impl From<OutOfMemory> for Refusal {
    ghost from_gives = { λ _ refusal. refusal ≡ Memory };

    fn from(_refused: OutOfMemory) -> Refusal {
        Refusal::Memory
    }
}

/// The number of a refusal.
pub(crate) fn status_of(refusal: Refusal) -> u32
    ensures { result ≡ status_number refusal }
{
    match refusal {
        Refusal::Nodes => 1,
        Refusal::Lengths => 2,
        Refusal::BadEnd => 3,
        Refusal::Terminal => 4,
        Refusal::Memory => 5,
    }
}
