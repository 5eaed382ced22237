//! pim_manager: the texts of the faults.

use pim_manager::{AdoptFault, MakeFault, SharedFault};
use std::test::Fail;

const MAKE_FAULTS: [(MakeFault, &str); 3] = [
    (MakeFault::TooManyTasks, "too many tasks"),
    (MakeFault::TooManyMutexes, "too many mutexes"),
    (MakeFault::Memory, "memory"),
];

#[test]
fn each_fault_of_making_has_its_text(rt: HostRuntime) -> Result<(), Fail> {
    for (fault, text) in MAKE_FAULTS {
        let printed = format!(in rt.alloc(); "{fault}")?;
        assert!(rt; printed.as_str() == text, "{text}");
    }
    Ok(())
}

const ADOPT_FAULTS: [(AdoptFault, &str); 4] = [
    (AdoptFault::NoTask, "no task"),
    (AdoptFault::NoMutex, "no mutex"),
    (AdoptFault::Protect, "protect"),
    (AdoptFault::Busy, "busy"),
];

#[test]
fn each_fault_of_adopting_has_its_text(rt: HostRuntime) -> Result<(), Fail> {
    for (fault, text) in ADOPT_FAULTS {
        let printed = format!(in rt.alloc(); "{fault}")?;
        assert!(rt; printed.as_str() == text, "{text}");
    }
    Ok(())
}

const SHARED_FAULTS: [(SharedFault, &str); 5] = [
    (SharedFault::Full, "full"),
    (SharedFault::Memory, "memory"),
    (SharedFault::Closed, "closed"),
    (SharedFault::Torn, "torn"),
    (SharedFault::NoPlace, "no place"),
];

#[test]
fn each_shared_fault_has_its_text(rt: HostRuntime) -> Result<(), Fail> {
    for (fault, text) in SHARED_FAULTS {
        let printed = format!(in rt.alloc(); "{fault}")?;
        assert!(rt; printed.as_str() == text, "{text}");
    }
    Ok(())
}
