//! The laws of runs.
ghost use Rattle.cidr.specs.Laws.Runs.{AfterOk, AfterReadFault, AfterWriteFault, AfterTooLong};

/// After Ok, the input was within the limit, and an output for it was written.
pub fn after_ok()
    ensures { AfterOk }
{}

/// After a read fault, exactly the lines that were read completely, with their line feed, were
/// answered.
pub fn after_a_read_fault()
    ensures { AfterReadFault }
{}

/// After a write fault, a beginning of an output for what was read was written.
pub fn after_a_write_fault()
    ensures { AfterWriteFault }
{}

/// If the input is too long, there is a beginning of it, not longer than the limit, such that
/// exactly the lines that it completes were answered.
pub fn after_too_long_an_input()
    ensures { AfterTooLong }
{}
