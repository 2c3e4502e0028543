// Why pages weren't read.
ghost use Rattle.std.specs.Prelude.{◌≡◌};
ghost use Rattle.oc_pages.specs.declared.fault.PagesFault.TheVariants as pages_fault;

use oc_host::Failed;
use std::alloc::AllocError;

/// A call on the host failed, there was no memory, or the file has no chain of pages.
#[derive(Clone, Copy, Debug, PartialEq, Eq)]
pub enum PagesFault {
    Host,
    Memory,
    NotAPage,
}

impl From<Failed> for PagesFault {
    ghost from_gives = { λ _ fault. fault ≡ pages_fault.Host };

    fn from(_: Failed) -> Self {
        PagesFault::Host
    }
}

impl From<AllocError> for PagesFault {
    ghost from_gives = { λ _ fault. fault ≡ pages_fault.Memory };

    fn from(_: AllocError) -> Self {
        PagesFault::Memory
    }
}
