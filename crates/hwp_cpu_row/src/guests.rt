ghost use Rattle.std.specs.Prelude.{◌≡◌, false, None, Some, replicate, IfOk, IsOk};
ghost use Rattle.hwp_claim.specs.hwp_guest.GuestState.{admitted};
ghost use Rattle.hwp_claim.specs.hwp_law.GuestRule.{guest_line, new_guest, stops};
ghost use Rattle.hwp_claim.specs.hwp_geom.Layout.{has_guests};
ghost use Rattle.hwp_cpu_row.specs.GuestLists.{CanTake, MayTell, admission_in, first_guests, guest_in, line_in, taken_in, told_in};

use hwp_claim::{
    Admit, Answer, Command, Guest, GuestAccess, GuestLine, Layout, OutOfMemory, Proc, Taken, VSlot,
    guest_access,
};
use std::alloc::Global;
use std::marker::Model;

/// Of each process what it is as a guest. Where no process is a guest the list is empty, and takes no memory. Clauses see the list.
#[derive(Drop)]
pub struct Guests {
    guests: Vec<Guest>,
}

impl Model for Guests {
    ghost use Rattle.std.specs.Prelude.{List};
    ghost use Rattle.std.specs.Coded.{coded_list};
    ghost use Rattle.hwp_claim.specs.hwp_guest.GuestState.{GuestState, state_code};

    ghost Value = { List GuestState };

    ghost coded = { coded_list state_code };

    ghost view = { λ g. g.guests.items };
}

impl Guests {
    /// At first no guest has a bad frame.
    ///
    /// # Errors
    /// `OutOfMemory` where a process is a guest, and there is no room.
    pub fn new(alloc: Global, layout: &Layout) -> Result<Guests, OutOfMemory>
        ensures first { IfOk result (λ g. g ≡ first_guests layout.now) }
        ensures unguested { has_guests layout.now ≡ false → IsOk result }
    {
        if !layout.has_guests() {
            return Ok(Guests {
                guests: Vec::new(alloc),
            });
        }
        Ok(Guests {
            guests: new_guests(alloc, layout.procs)?,
        })
    }

    /// Whether the process admits an access through the translation.
    fn admits(&self, process: Proc, slot: VSlot) -> Admit
        ensures { result ≡ admitted (guest_in self.now process) slot.0 }
    {
        match self.guests.get(usize::from(process.0)) {
            Some(guest) => guest.admits(slot),
            None => Admit::Yes,
        }
    }

    /// Whether its guest admits the access of a command. What is no access of a guest is admitted.
    pub fn admission(&self, layout: &Layout, command: &Command) -> Admit
        ensures { result ≡ admission_in layout.now self.now command.now }
    {
        let Some(access) = guest_access(layout, command) else {
            return Admit::Yes;
        };
        self.admits(access.process, access.slot)
    }

    /// The command got this answer: an access of a guest that was answered by SIGBUS is a machine check of the guest, whose line it is. The
    /// guest has to admit the access.
    pub fn told(
        &mut self,
        layout: &Layout,
        seq: u32,
        command: &Command,
        answer: Answer,
    ) -> Option<GuestLine>
        requires { MayTell layout.now self.old command.now answer }
        ensures line { result ≡ line_in layout.now seq command.now answer }
        ensures state { self.new ≡ told_in layout.now command.now answer self.old }
    {
        let Answer::Sigbus(_) = answer else {
            return None;
        };
        let Some(access) = guest_access(layout, command) else {
            return None;
        };
        Some(self.take(seq, access))
    }

    /// A guest's machine check for this access, which was answered by SIGBUS.
    fn take(&mut self, seq: u32, access: GuestAccess) -> GuestLine
        requires { CanTake self.old access }
        ensures line { result ≡ guest_line seq access }
        ensures state { self.new ≡ taken_in self.old access }
    {
        let guest = &mut self.guests[usize::from(access.process.0)];
        let (event, grade, taken) = guest.take(access.slot, access.line, access.kind, access.mode);
        GuestLine {
            seq,
            bank: 0,
            status: event.status.0,
            addr: event.addr,
            misc: event.misc,
            row: grade.row,
            stops: stops(taken),
        }
    }
}

/// So many guests that go on, without a bad frame.
fn new_guests(alloc: Global, procs: u8) -> Result<Vec<Guest>, OutOfMemory>
    ensures { IfOk result (λ guests. guests.items ≡ replicate procs new_guest) }
{
    let mut guests = Vec::new(alloc);
    for _process in 0..procs {
        guests.push(Guest::new())?;
    }
    Ok(guests)
}

/// Whether a machine check stopped the guest.
fn stops(taken: Taken) -> bool
    ensures { result ≡ stops taken }
{
    match taken {
        Taken::Bad => false,
        Taken::Stop => true,
    }
}
