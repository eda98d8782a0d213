use hwp_geom::Mode;

/// What is done about an event (this project's rule, with the Intel SDM's names for uncorrected recoverable errors).
#[derive(Clone, Copy, PartialEq, Eq)]
pub enum Severity {
    /// There is no event, or its reporting is not enabled.
    None,
    /// A corrected error: it is kept on record.
    Keep,
    /// An uncorrected error that needs no action now (UCNA).
    Deferred,
    /// An uncorrected error that is only logged.
    Logged,
    /// An uncorrected error on which software may act (SRAO).
    Optional,
    /// An uncorrected error on which software must act before it goes on (SRAR).
    Required,
    /// The machine stops.
    Stop,
}

/// The severity of an event, and the row of the table that gave it, 1 to 14.
#[derive(Clone, Copy, PartialEq, Eq)]
pub struct Grade {
    pub severity: Severity,
    pub row: u8,
}

/// The bits RIPV (the program can be started again at the saved instruction) and EIPV (the saved instruction goes with
/// the error) of IA32_MCG_STATUS (Intel SDM vol. 3).
#[derive(Clone, Copy, PartialEq, Eq)]
pub struct McgBits {
    pub ripv: bool,
    pub eipv: bool,
}

/// How a machine check arrives: two bits of IA32_MCG_STATUS, and the mode of the processor (this project's rule).
#[derive(Clone, Copy)]
pub struct Arrival {
    pub mcg: McgBits,
    pub mode: Mode,
}
