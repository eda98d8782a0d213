/// What a step does to a slot, which has the body of a frame or is the shelf of a page. The slots are numbered, those of
/// the frames first.
#[derive(Clone, Copy)]
pub enum SlotMove {
    /// No slot moves.
    Stays,
    /// The slot goes out with the holder of its lock.
    Out(usize),
    /// The slot comes home, with what the holder puts in it.
    Home(usize),
}
