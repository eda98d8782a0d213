ghost use Rattle.std.specs.Prelude.{◌≡◌, ◌<◌, length, OnOk, IfOk, IfSome, Some, true, false, replicate, [], ◌∷◌, ◌++◌};
ghost use Rattle.std.specs.List.{slice_set};
ghost use Rattle.hwp_script_read.specs.Collects.{push_in};
ghost use Rattle.hwp_script_lines.specs.hwp_geom.Limits.{translation_limit};
ghost use Rattle.hwp_script_read.specs.Context.{kind_of, slot_of};
ghost use Rattle.hwp_script_read.specs.Reasons.{IsClean, IsBackingOver};
ghost use Rattle.hwp_script_read.specs.Sums.{Sums};

use crate::context::Summary;
use hwp_script_lines::{
    Backing, Command, Cpu, FileNo, Go, List, OutOfMemory, Page, PageKind, Proc, ScriptLine,
    ThreadDecl, TransDecl, VSlot,
};
use std::alloc::Global;
use std::mem;

/// So many frames, of which none is the kernel's.
fn no_marks(alloc: Global, frames: u64) -> Result<Vec<bool>, OutOfMemory>
    ensures { IfOk result (λ marks. marks.items ≡ replicate frames false) }
{
    Ok(vec![in alloc; false; frames as usize]?)
}

/// Marks the item of this number.
fn mark(marks: &mut Vec<bool>, number: u64)
    requires { number < length marks.old.items }
    ensures { marks.new.items ≡ slice_set marks.old.items number true }
{
    marks[number as usize] = true;
}

/// Gives a translation its twin.
fn set_twin(twins: &mut Vec<Option<VSlot>>, slot: u64, twin: u64)
    requires slot { slot < length twins.old.items }
    requires twin { twin < translation_limit }
    ensures { twins.new.items ≡ slice_set twins.old.items slot (Some (slot_of twin)) }
{
    twins[slot as usize] = Some(VSlot(twin as u16));
}

/// What stands behind a page.
fn page_kind(backing: Backing) -> PageKind
    requires { IsBackingOver backing → ⊥ }
    ensures { result ≡ kind_of backing }
{
    match backing {
        Backing::Anon => PageKind::Anon,
        Backing::File { file, fill } => PageKind::File {
            file: FileNo(file as u8),
            fill,
        },
    }
}

/// Adds words to a schedule.
fn push_words(alloc: Global, go: &mut List<Go>, words: &[Go]) -> Result<(), OutOfMemory>
    ensures { OnOk result (go.new ≡ go.old ++ words.now) }
{
    let mut longer = mem::replace(go, List::new(alloc)).into_vec();
    longer.extend_from_slice(words)?;
    *go = List::from_vec(longer);
    Ok(())
}

/// So many empty lists.
fn empty_lists(alloc: Global, cpus: u64) -> Result<Vec<List<Command>>, OutOfMemory>
    ensures { IfOk result (λ lists. lists.items ≡ replicate cpus []) }
{
    let mut lists = Vec::new(alloc);
    for _cpu in 0..cpus {
        lists.push(List::new(alloc))?;
    }
    Ok(lists)
}

/// Adds a command to the list of a processor, if it stands in one.
fn push_command(
    lists: &mut Vec<List<Command>>,
    place: Option<u64>,
    command: Command,
) -> Result<(), OutOfMemory>
    requires { IfSome place (λ p. p < length lists.old.items) }
    ensures { OnOk result (lists.new.items ≡ push_in place command lists.old.items) }
{
    let Some(place) = place else {
        return Ok(());
    };
    lists[place as usize].push(command)?;
    Ok(())
}

impl Summary {
    #[tactic(auto, using(crate::proofs::CleanLaws::clean_cpus, crate::proofs::CleanLaws::small_cpus))]
    fn add_cpus(&mut self, above: &[ScriptLine], alloc: Global, n: u64) -> Result<(), OutOfMemory>
        requires sums { Sums above.now self.old }
        requires clean { IsClean above.now (ScriptLine.Cpus n) }
        ensures { OnOk result (Sums (above.now ++ ScriptLine.Cpus n ∷ []) self.new) }
    {
        self.group = 1;
        self.cpus = n as u8;
        self.lists = empty_lists(alloc, n)?;
        Ok(())
    }

    #[tactic(auto, using(crate::proofs::CleanLaws::clean_frames, crate::proofs::CleanLaws::small_frames))]
    fn add_frames(&mut self, above: &[ScriptLine], alloc: Global, n: u64) -> Result<(), OutOfMemory>
        requires sums { Sums above.now self.old }
        requires clean { IsClean above.now (ScriptLine.Frames n) }
        ensures { OnOk result (Sums (above.now ++ ScriptLine.Frames n ∷ []) self.new) }
    {
        self.group = 2;
        self.frames = n as u16;
        self.kernel = no_marks(alloc, n)?;
        Ok(())
    }

    #[tactic(auto, using(crate::proofs::CleanLaws::clean_kernel))]
    fn add_kernel(&mut self, above: &[ScriptLine], frame: u64)
        requires sums { Sums above.now self.old }
        requires clean { IsClean above.now (ScriptLine.Kernel frame) }
        ensures { Sums (above.now ++ ScriptLine.Kernel frame ∷ []) self.new }
    {
        self.group = 3;
        mark(&mut self.kernel, frame);
    }

    #[tactic(auto, using(crate::proofs::CleanLaws::clean_recovery))]
    fn add_recovery(&mut self, above: &[ScriptLine], value: u64)
        requires sums { Sums above.now self.old }
        requires clean { IsClean above.now (ScriptLine.Recovery value) }
        ensures { Sums (above.now ++ ScriptLine.Recovery value ∷ []) self.new }
    {
        self.group = 4;
        self.recovery = Some(value == 1);
    }

    #[tactic(auto, using(crate::proofs::CleanLaws::clean_early))]
    fn add_early(&mut self, above: &[ScriptLine], value: u64)
        requires sums { Sums above.now self.old }
        requires clean { IsClean above.now (ScriptLine.Early value) }
        ensures { Sums (above.now ++ ScriptLine.Early value ∷ []) self.new }
    {
        self.group = 5;
        self.early = Some(value == 1);
    }

    #[tactic(auto, using(crate::proofs::CleanLaws::clean_file))]
    fn add_file(&mut self, above: &[ScriptLine], file: u64)
        requires sums { Sums above.now self.old }
        requires clean { IsClean above.now (ScriptLine.File file) }
        ensures { Sums (above.now ++ ScriptLine.File file ∷ []) self.new }
    {
        self.group = 6;
        self.files += 1;
    }

    #[tactic(auto, using(crate::proofs::CleanLaws::clean_proc))]
    fn add_proc(&mut self, above: &[ScriptLine], process: u64) -> Result<(), OutOfMemory>
        requires sums { Sums above.now self.old }
        requires clean { IsClean above.now (ScriptLine.Proc process) }
        ensures { OnOk result (Sums (above.now ++ ScriptLine.Proc process ∷ []) self.new) }
    {
        self.group = 7;
        self.procs += 1;
        self.guests.push(false)?;
        Ok(())
    }

    #[tactic(auto, using(crate::proofs::CleanLaws::clean_thread, crate::proofs::CleanLaws::small_thread))]
    fn add_thread(
        &mut self,
        above: &[ScriptLine],
        thread: u64,
        process: u64,
        cpu: u64,
        handler: bool,
    ) -> Result<(), OutOfMemory>
        requires sums { Sums above.now self.old }
        requires clean { IsClean above.now (ScriptLine.Thread thread process cpu handler) }
        ensures { OnOk result (Sums (above.now ++ ScriptLine.Thread thread process cpu handler ∷ []) self.new) }
    {
        self.group = 8;
        self.threads.push(ThreadDecl {
            process: Proc(process as u8),
            cpu: Cpu(cpu as u8),
            handler,
        })?;
        Ok(())
    }

    #[tactic(auto, using(crate::proofs::CleanLaws::clean_guest))]
    fn add_guest(&mut self, above: &[ScriptLine], process: u64)
        requires sums { Sums above.now self.old }
        requires clean { IsClean above.now (ScriptLine.Guest process) }
        ensures { Sums (above.now ++ ScriptLine.Guest process ∷ []) self.new }
    {
        self.group = 9;
        mark(&mut self.guests, process);
    }

    #[tactic(auto, using(crate::proofs::CleanLaws::clean_page))]
    fn add_page(
        &mut self,
        above: &[ScriptLine],
        page: u64,
        backing: Backing,
        locked: bool,
    ) -> Result<(), OutOfMemory>
        requires sums { Sums above.now self.old }
        requires clean { IsClean above.now (ScriptLine.Page page backing locked) }
        ensures { OnOk result (Sums (above.now ++ ScriptLine.Page page backing locked ∷ []) self.new) }
    {
        self.group = 10;
        self.pages.push(page_kind(backing))?;
        self.locked.push(locked)?;
        Ok(())
    }

    #[tactic(auto, using(crate::proofs::CleanLaws::clean_trans, crate::proofs::CleanLaws::small_trans))]
    fn add_trans(
        &mut self,
        above: &[ScriptLine],
        slot: u64,
        process: u64,
        page: u64,
    ) -> Result<(), OutOfMemory>
        requires sums { Sums above.now self.old }
        requires clean { IsClean above.now (ScriptLine.Trans slot process page) }
        ensures { OnOk result (Sums (above.now ++ ScriptLine.Trans slot process page ∷ []) self.new) }
    {
        self.group = 11;
        self.trans.push(TransDecl {
            process: Proc(process as u8),
            page: Page(page as u16),
        })?;
        self.twins.push(None)?;
        Ok(())
    }

    #[tactic(auto, using(crate::proofs::CleanLaws::clean_cow))]
    fn add_cow(&mut self, above: &[ScriptLine], slot: u64, twin: u64)
        requires sums { Sums above.now self.old }
        requires clean { IsClean above.now (ScriptLine.Cow slot twin) }
        ensures { Sums (above.now ++ ScriptLine.Cow slot twin ∷ []) self.new }
    {
        self.group = 12;
        set_twin(&mut self.twins, slot, twin);
    }

    #[tactic(auto, using(crate::proofs::CleanLaws::clean_cpu))]
    fn add_cpu(&mut self, above: &[ScriptLine], cpu: u64) -> Result<(), OutOfMemory>
        requires sums { Sums above.now self.old }
        requires clean { IsClean above.now (ScriptLine.Cpu cpu) }
        ensures { OnOk result (Sums (above.now ++ ScriptLine.Cpu cpu ∷ []) self.new) }
    {
        self.group = 13;
        self.place = Some(cpu);
        self.begun.push(cpu)?;
        Ok(())
    }

    #[tactic(auto, using(crate::proofs::CleanLaws::clean_command))]
    fn add_command(&mut self, above: &[ScriptLine], command: &Command) -> Result<(), OutOfMemory>
        requires sums { Sums above.now self.old }
        requires clean { IsClean above.now (ScriptLine.Command command.now) }
        ensures { OnOk result (Sums (above.now ++ ScriptLine.Command command.now ∷ []) self.new) }
    {
        self.group = 13;
        self.commands += 1;
        push_command(&mut self.lists, self.place, *command)?;
        Ok(())
    }

    #[tactic(auto, using(crate::proofs::CleanLaws::clean_schedule))]
    fn add_schedule(
        &mut self,
        above: &[ScriptLine],
        alloc: Global,
        words: &[Go],
    ) -> Result<(), OutOfMemory>
        requires sums { Sums above.now self.old }
        requires clean { IsClean above.now (ScriptLine.Schedule words.now) }
        ensures { OnOk result (Sums (above.now ++ ScriptLine.Schedule words.now ∷ []) self.new) }
    {
        self.group = 14;
        self.place = None;
        push_words(alloc, &mut self.go, words)?;
        Ok(())
    }

    #[tactic(auto, using(crate::proofs::CleanLaws::clean_end))]
    fn add_end(&mut self, above: &[ScriptLine])
        requires sums { Sums above.now self.old }
        requires clean { IsClean above.now (ScriptLine.End) }
        ensures { Sums (above.now ++ ScriptLine.End ∷ []) self.new }
    {
        self.group = 15;
        self.place = None;
    }

    /// The summary with one more line.
    pub(crate) fn add(
        &mut self,
        alloc: Global,
        above: &[ScriptLine],
        form: &ScriptLine,
    ) -> Result<(), OutOfMemory>
        requires sums { Sums above.now self.old }
        requires clean { IsClean above.now form.now }
        ensures { OnOk result (Sums (above.now ++ form.now ∷ []) self.new) }
    {
        match form {
            ScriptLine::Header(version) => self.version = *version,
            ScriptLine::Cpus(n) => return self.add_cpus(above, alloc, *n),
            ScriptLine::Frames(n) => return self.add_frames(above, alloc, *n),
            ScriptLine::Kernel(frame) => self.add_kernel(above, *frame),
            ScriptLine::Recovery(value) => self.add_recovery(above, *value),
            ScriptLine::Early(value) => self.add_early(above, *value),
            ScriptLine::File(file) => self.add_file(above, *file),
            ScriptLine::Proc(process) => return self.add_proc(above, *process),
            ScriptLine::Thread {
                thread,
                process,
                cpu,
                handler,
            } => return self.add_thread(above, *thread, *process, *cpu, *handler),
            ScriptLine::Guest(process) => self.add_guest(above, *process),
            ScriptLine::Page {
                page,
                backing,
                locked,
            } => return self.add_page(above, *page, *backing, *locked),
            ScriptLine::Trans {
                slot,
                process,
                page,
            } => return self.add_trans(above, *slot, *process, *page),
            ScriptLine::Cow { slot, twin } => self.add_cow(above, *slot, *twin),
            ScriptLine::Cpu(cpu) => return self.add_cpu(above, *cpu),
            ScriptLine::Command(command) => return self.add_command(above, command),
            ScriptLine::Schedule(words) => return self.add_schedule(above, alloc, words.as_slice()),
            ScriptLine::End => self.add_end(above),
        }
        Ok(())
    }
}
