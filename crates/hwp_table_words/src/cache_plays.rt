ghost use Rattle.hwp_table_words.specs.CachePlays.{Aim, Look, IsFilled, IsFlushed, IsLooked, IsSearched, no_aim, no_look};

use crate::knowledge::Knowledge;
use crate::plays::Slot;
use atomic_table::Play;
use std::marker::{Brand, PhantomData};

/// Which load of a translation it is, and at which entry it looks.
pub trait Looking {
    ghost look: { Look };
}

impl Looking for Brand {
    ghost look = { no_look };
}

/// A load of a translation looks at an entry first, which may answer it.
pub struct Looks<N: Looking> {
    of: PhantomData<N>,
}

impl<N: Looking> Play<Slot, Knowledge> for Looks<N> {
    ghost then = { λ step m found n. IsLooked N.look step.word m found n };
}

/// Which entry a step is on, and for which frame.
pub trait Aimed {
    ghost aim: { Aim };
}

impl Aimed for Brand {
    ghost aim = { no_aim };
}

/// A look whether an entry names a frame.
pub struct Searches<N: Aimed> {
    of: PhantomData<N>,
}

impl<N: Aimed> Play<Slot, Knowledge> for Searches<N> {
    ghost then = { λ step m found n. IsSearched N.aim step.word m found n };
}

/// An entry that names a frame is taken away.
pub struct Flushes<N: Aimed> {
    of: PhantomData<N>,
}

impl<N: Aimed> Play<Slot, Knowledge> for Flushes<N> {
    ghost then = { λ step m found n. IsFlushed N.aim step.word m found n };
}

/// An entry is written.
pub struct Fills<N: Aimed> {
    of: PhantomData<N>,
}

impl<N: Aimed> Play<Slot, Knowledge> for Fills<N> {
    ghost then = { λ step m found n. IsFilled N.aim step.word m found n };
}
