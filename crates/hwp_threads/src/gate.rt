use hwp_core_rule::Cpu;

/// Where a worker stands in a command of its processor.
#[derive(Clone, Copy)]
pub enum Point {
    /// The command's first turn is made.
    Begun,
    /// The command's last turn is made.
    Answered,
}

/// What workers pass at the points of their commands. A gate that takes long holds the worker there.
pub trait Gate {
    /// The processor's command with this number came to this point.
    fn pass(&self, cpu: Cpu, seq: u32, at: Point);
}

/// A gate that does nothing.
#[derive(Clone, Copy, Drop)]
pub struct Open;

impl Gate for Open {
    fn pass(&self, _cpu: Cpu, _seq: u32, _at: Point) {}
}
