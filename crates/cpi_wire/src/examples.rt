//! Examples of the bodies of plans.
ghost use Rattle.cpi_wire.specs.Examples.{AnyOrder, TwoReferences, NoReferences, ReferenceFaults};

/// The bodies of plans with a reference month, and the replies to its faults, computed by the definitions.
pub fn worked_bodies()
    ensures any_order { AnyOrder }
    ensures two_references { TwoReferences }
    ensures no_references { NoReferences }
    ensures reference_faults { ReferenceFaults }
{}
