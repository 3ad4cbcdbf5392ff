//! What follows from the laws of this crate. Nothing calls these functions: each needs one law, and
//! is not proved without it.
ghost use Rattle.std.specs.Prelude.{IsFalse, IsTrue};

use super::{fault_clone, fault_equality};
use crate::fault::RunFault;

fn faults_are_apart() -> bool
    ensures { IsFalse result }
{
    fault_equality(RunFault::Read, RunFault::Write)
}

fn a_fault_is_equal(fault: RunFault) -> bool
    ensures { IsTrue result }
{
    fault_equality(fault, fault)
}

fn a_copy_is_equal(fault: RunFault) -> bool
    ensures { IsTrue result }
{
    fault_clone(fault) == Ok(fault)
}
