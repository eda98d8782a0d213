ghost use Rattle.std.specs.Prelude.{◌≡◌};
ghost use Rattle.hwp_guest.specs.Guests.{origin_of};

use hwp_severity::Origin;

/// How a guest's access reads or writes memory.
#[derive(Clone, Copy, PartialEq, Eq)]
pub enum Access {
    /// A load or a store, also one of the kernel.
    Plain,
    /// A fetch of an instruction.
    Fetch,
}

impl Access {
    /// Whose event it brings about when it is answered by SIGBUS.
    pub fn origin(self) -> Origin
        ensures { result ≡ origin_of self }
    {
        match self {
            Access::Plain => Origin::Access,
            Access::Fetch => Origin::Fetch,
        }
    }
}

/// Whether a guest's access goes on to memory.
#[derive(Clone, Copy, PartialEq, Eq)]
pub enum Admit {
    /// It does.
    Yes,
    /// It doesn't: its guest frame is bad.
    Bad,
    /// It doesn't: the guest is stopped.
    Stopped,
}

/// What a guest makes of an access that was answered by SIGBUS.
#[derive(Clone, Copy, PartialEq, Eq)]
pub enum Taken {
    /// Its guest frame is bad from now on.
    Bad,
    /// The guest is stopped from now on.
    Stop,
}
