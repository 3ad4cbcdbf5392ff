//! The laws of equality and of clones of faults.
ghost use Rattle.std.specs.Prelude.{◌≡◌, ◌↔◌, IsTrue, Ok, Result};

use crate::fault::RunFault;
use std::alloc::AllocError;

/// Two faults are equal exactly if they are the same fault.
pub fn fault_equality(a: RunFault, b: RunFault) -> bool
    ensures { IsTrue result ↔ (a ≡ b) }
{
    a == b
}

/// A clone of a fault is the same fault, and cloning never fails.
pub fn fault_clone(fault: RunFault) -> Result<RunFault, AllocError>
    ensures { result ≡ Ok fault }
{
    fault.clone()
}
