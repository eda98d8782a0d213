ghost use Rattle.std.specs.Prelude.{◌≡◌, [], is_none, vec_capacity};
ghost use Rattle.hwp_claim_act.specs.Reads.{IsBegun};

use hwp_core::{
    Body, Frame, Layout, List, OutOfMemory, PolicyWord, Ranked, Seen, SharedWord, SignalRoom,
    SlotRoom, Step, Task, Thread, Turn, Who, next_to_read,
};
use std::alloc::Global;

/// Room for the signals of a memory failure and for the translations in use, made before the page has its entry.
#[derive(Drop)]
pub struct Rooms {
    pub signals: SignalRoom,
    pub slots: SlotRoom,
}

impl Rooms {
    /// Room for as many as there can be.
    ///
    /// # Errors
    /// `OutOfMemory` where there is none.
    pub fn new(alloc: Global) -> Result<Rooms, OutOfMemory> {
        Ok(Rooms {
            signals: SignalRoom::new(alloc)?,
            slots: SlotRoom::new(alloc)?,
        })
    }
}

/// Reads the policies of the threads that a memory failure may signal (prctl(2), PR_MCE_KILL), one thread after another
/// (Linux collect_procs; the order is this project's rule). The page is held, with its frame.
#[derive(Drop)]
pub struct ReadPolicies {
    who: Who,
    frame: Frame,
    required: Option<Thread>,
    body: Body,
    /// Has room for all threads of the layout.
    seen: Vec<Seen>,
    /// The thread that comes.
    next: Option<Thread>,
    /// For the signals and the translations, once all policies are read.
    room: Rooms,
}

impl ReadPolicies {
    /// The command reads the policies for the page of this body, in this frame, where `required` is the thread that needs
    /// the page now. What it reads it puts into `seen`, which is empty; the room is kept.
    pub fn new(
        who: Who,
        frame: Frame,
        required: Option<Thread>,
        body: Body,
        seen: Vec<Seen>,
        room: Rooms,
    ) -> ReadPolicies
        requires { seen.items ≡ [] }
        ensures { IsBegun who frame required body (vec_capacity seen) result }
    {
        let maps = &body.state().maps;
        let next = next_to_read(body.layout(), maps, required, seen.as_slice());
        ReadPolicies {
            who,
            frame,
            required,
            body,
            seen,
            next,
            room,
        }
    }

    /// Whether all are read.
    pub fn is_over(&self) -> bool
        ensures { result ≡ is_none self.now.next }
    {
        self.next.is_none()
    }

    /// The thread that needs the page now.
    pub fn required(&self) -> Option<Thread>
        ensures { result ≡ self.now.required }
    {
        self.required
    }

    /// The page's body, what was read, and the room.
    pub fn into_parts(self) -> (Body, List<Seen>, Rooms)
        ensures { (result.0 ≡ self.body) × (result.1 ≡ self.seen.items) }
    {
        let ReadPolicies {
            body,
            seen,
            room,
            ..
        } = self;
        (body, List::from_vec(seen), room)
    }
}

impl Task for ReadPolicies {
    ghost use Rattle.hwp_claim_act.specs.Reads as reads;

    ghost task = { reads.task };

    fn who(&self) -> Who {
        self.who
    }

    fn plan(&self) -> Option<Step> {
        match self.next {
            Some(thread) => Some(Step::Load {
                place: SharedWord::Policy(thread),
            }),
            None => None,
        }
    }

    fn give(&mut self) -> Option<Body> {
        None
    }

    fn settle(&mut self, _layout: &Layout, found: u64, _body: Option<Body>) -> Turn {
        if let Some(thread) = self.next {
            let word = PolicyWord::unpack(found);
            self.seen.push_reserved(Seen {
                thread,
                policy: word.policy,
                n: word.settings as u32,
            });
            let maps = &self.body.state().maps;
            let seen = self.seen.as_slice();
            self.next = next_to_read(self.body.layout(), maps, self.required, seen);
        }
        Turn::Moved
    }
}

impl Ranked for ReadPolicies {
    fn class(&self) -> u8 {
        1
    }

    fn ranked() {}
}
