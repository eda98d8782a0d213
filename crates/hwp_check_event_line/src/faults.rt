/// What is wrong about the event lines of a command: the first that isn't the one that its machine checks ask at its place, if
/// there is one, and whether there are fewer than they ask.
#[derive(Clone, Copy)]
pub struct Faults {
    pub wrong: Option<usize>,
    pub lacks: bool,
}
