//! The machine in plain vectors: words, page bodies, and a trail of the moves that brought them about, which clauses alone
//! read. Tasks advance on it turn by turn. That the board was reached by these moves, and that the frame rule holds of it,
//! stands in its type. Beside it stands what every board needs: the order of turns, the words and the bodies at opening, and,
//! when nothing is held, what the machine came to and the histories of its pages. And a plain board that is watched, with a
//! line for each of its turns; the text of these lines is a trace.
#![tactic(auto)]

mod board;
mod bodies;
mod closing;
mod line_words;
mod machine;
mod notes;
mod opening;
mod ops;
mod printing;
mod scheduler;
mod slot;
mod trace_line;
mod traced_board;
mod trail;
mod turns;
mod values;
mod words;

pub use board::PlainBoard;
pub use closing::histories;
pub use machine::{Machine, machine_of};
pub use opening::opening_bodies;
pub use printing::print_trace;
pub use scheduler::step_all;
pub use trace_line::TraceLine;
pub use traced_board::TracedBoard;
pub use words::opening_words;
