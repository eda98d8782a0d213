/// What is wrong about the event lines of a processor: whether some command lacks one, and the first row that shows a wrong one.
#[derive(Clone, Copy)]
pub struct Misfits {
    pub lacks: bool,
    pub wrong: Option<usize>,
}
