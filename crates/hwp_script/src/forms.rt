ghost use Rattle.std.specs.Prelude.{◌≡◌, ◌∷◌, ◌++◌, [], OnOk, string_bytes, codes, decimal};
ghost use Rattle.std.specs.List.{flat_map};
ghost use Rattle.hwp_script_read.specs.hwp_geom.Words.{line};
ghost use Rattle.hwp_script_read.specs.hwp_script_lines.Grammar.{bit, form_words, turn_text};
ghost use Rattle.hwp_script_read.specs.hwp_script_lines.Numbers.{register};
ghost use Rattle.hwp_script.specs.Printed.{command_line, thread_words, page_line, schedule_words};

use hwp_script_read::{
    Backing, Command, Frame, Go, Line, OutOfMemory, PrctlArgs, Proc, ScriptLine, Thread, Until,
    VSlot, Word, kind_name, put_line,
};

/// Adds the line of a form to a text, with its line feed.
#[tactic(auto, unfolding(crate::specs::Printed::command_line))]
pub fn put_form(out: &mut String, form: &ScriptLine) -> Result<(), OutOfMemory>
    ensures { OnOk result (string_bytes out.new ≡ string_bytes out.old ++ line (form_words form.now)) }
{
    match form {
        ScriptLine::Header(version) => put_number(out, "hwp", u64::from(version.number())),
        ScriptLine::Cpus(count) => put_number(out, "cpus", *count),
        ScriptLine::Frames(count) => put_number(out, "frames", *count),
        ScriptLine::Kernel(frame) => put_number(out, "kernel", *frame),
        ScriptLine::Recovery(setting) => put_number(out, "recovery", *setting),
        ScriptLine::Early(setting) => put_number(out, "early", *setting),
        ScriptLine::File(file) => put_number(out, "file", *file),
        ScriptLine::Proc(process) => put_number(out, "proc", *process),
        ScriptLine::Thread {
            thread,
            process,
            cpu,
            handler,
        } => put_thread(out, *thread, *process, *cpu, *handler),
        ScriptLine::Guest(process) => put_number(out, "guest", *process),
        ScriptLine::Page {
            page,
            backing,
            locked,
        } => put_page(out, *page, *backing, *locked),
        ScriptLine::Trans {
            slot,
            process,
            page,
        } => put_trans(out, *slot, *process, *page),
        ScriptLine::Cow { slot, twin } => put_cow(out, *slot, *twin),
        ScriptLine::Cpu(cpu) => put_number(out, "cpu", *cpu),
        ScriptLine::Command(command) => put_command(out, command),
        ScriptLine::Schedule(turns) => put_schedule(out, turns.as_slice()),
        ScriptLine::End => put_line(out, Word::Text("end"), &[]),
    }
}

fn put_number(out: &mut String, word: &'static str, number: u64) -> Result<(), OutOfMemory>
    ensures { OnOk result (string_bytes out.new ≡ string_bytes out.old ++ line (word.now ∷ decimal number ∷ [])) }
{
    put_line(out, Word::Text(word), &[Word::Number(number)])
}

fn put_trans(out: &mut String, slot: u64, process: u64, page: u64) -> Result<(), OutOfMemory>
    ensures { OnOk result (string_bytes out.new ≡ string_bytes out.old ++ line (codes "trans" ∷ decimal slot ∷ decimal process ∷ decimal page ∷ [])) }
{
    put_line(
        out,
        Word::Text("trans"),
        &[
            Word::Number(slot),
            Word::Number(process),
            Word::Number(page),
        ],
    )
}

fn put_cow(out: &mut String, slot: u64, twin: u64) -> Result<(), OutOfMemory>
    ensures { OnOk result (string_bytes out.new ≡ string_bytes out.old ++ line (codes "cow" ∷ decimal slot ∷ decimal twin ∷ [])) }
{
    put_line(
        out,
        Word::Text("cow"),
        &[Word::Number(slot), Word::Number(twin)],
    )
}

fn put_thread(
    out: &mut String,
    thread: u64,
    process: u64,
    cpu: u64,
    handler: bool,
) -> Result<(), OutOfMemory>
    ensures { OnOk result (string_bytes out.new ≡ string_bytes out.old ++ line (thread_words thread process cpu handler)) }
{
    if handler {
        put_line(
            out,
            Word::Text("thread"),
            &[
                Word::Number(thread),
                Word::Number(process),
                Word::Number(cpu),
                Word::Text("handler"),
            ],
        )
    } else {
        put_line(
            out,
            Word::Text("thread"),
            &[
                Word::Number(thread),
                Word::Number(process),
                Word::Number(cpu),
                Word::Text("nohandler"),
            ],
        )
    }
}

fn put_page(out: &mut String, page: u64, backing: Backing, locked: bool) -> Result<(), OutOfMemory>
    ensures { OnOk result (string_bytes out.new ≡ string_bytes out.old ++ line (page_line page backing locked)) }
{
    match (backing, locked) {
        (Backing::Anon, false) => put_line(
            out,
            Word::Text("page"),
            &[Word::Number(page), Word::Text("anon")],
        ),
        (Backing::Anon, true) => put_line(
            out,
            Word::Text("page"),
            &[Word::Number(page), Word::Text("anon"), Word::Text("locked")],
        ),
        (Backing::File { file, fill }, false) => put_line(
            out,
            Word::Text("page"),
            &[
                Word::Number(page),
                Word::Text("file"),
                Word::Number(file),
                Word::Text("fill"),
                Word::Number(fill),
            ],
        ),
        (Backing::File { file, fill }, true) => put_line(
            out,
            Word::Text("page"),
            &[
                Word::Number(page),
                Word::Text("file"),
                Word::Number(file),
                Word::Text("fill"),
                Word::Number(fill),
                Word::Text("locked"),
            ],
        ),
    }
}

#[tactic(auto, unfolding(crate::specs::Printed::command_line))]
fn put_command(out: &mut String, command: &Command) -> Result<(), OutOfMemory>
    ensures { OnOk result (string_bytes out.new ≡ string_bytes out.old ++ command_line command.now) }
{
    match *command {
        Command::Load { thread, slot, line } => put_access(out, "load", thread, slot, line),
        Command::Fetch { thread, slot, line } => put_access(out, "fetch", thread, slot, line),
        Command::KLoad { thread, slot, line } => put_access(out, "kload", thread, slot, line),
        Command::Store {
            thread,
            slot,
            line,
            word,
        } => put_store(out, thread, slot, line, word),
        Command::Free { slot } => put_short(out, "free", slot.0),
        Command::Drop { page } => put_short(out, "drop", page.0),
        Command::Sync { page } => put_short(out, "sync", page.0),
        Command::Out { page } => put_short(out, "out", page.0),
        Command::Fsync { file } => put_short(out, "fsync", u16::from(file.0)),
        Command::Open { file } => put_short(out, "open", u16::from(file.0)),
        Command::Prctl { thread, args } => put_prctl(out, thread, args),
        Command::Bad { frame, line } => put_frame_line(out, "bad", frame, line),
        Command::Weak { frame, line } => put_frame_line(out, "weak", frame, line),
        Command::Scrub { first, last } => put_scrub(out, first, last),
        Command::Log { status, addr, misc } => put_log(out, status, addr, misc),
        Command::RaiseUser { thread, ripv, eipv } => put_user(out, thread, ripv, eipv),
        Command::RaiseKernel { ripv, eipv } => put_kernel(out, ripv, eipv),
        Command::RaiseNested => put_line(out, Word::Text("raise"), &[Word::Text("nested")]),
        Command::Inject { frame } => put_short(out, "inject", frame.0),
        Command::Soft { frame } => put_short(out, "soft", frame.0),
        Command::Unpoison { frame } => put_short(out, "unpoison", frame.0),
        Command::Watch { threshold, window } => put_watch(out, threshold, window),
        Command::Fork { thread, process } => put_fork(out, thread, process),
    }
}

fn put_access(
    out: &mut String,
    word: &'static str,
    thread: Thread,
    slot: VSlot,
    at: Line,
) -> Result<(), OutOfMemory>
    ensures { OnOk result (string_bytes out.new ≡ string_bytes out.old ++ line (word.now ∷ decimal thread.0 ∷ decimal slot.0 ∷ decimal at ∷ [])) }
{
    put_line(
        out,
        Word::Text(word),
        &[
            Word::Number(thread.0 as u64),
            Word::Number(slot.0 as u64),
            Word::Number(at.get() as u64),
        ],
    )
}

fn put_store(
    out: &mut String,
    thread: Thread,
    slot: VSlot,
    at: Line,
    word: u64,
) -> Result<(), OutOfMemory>
    ensures { OnOk result (string_bytes out.new ≡ string_bytes out.old ++ line (codes "store" ∷ decimal thread.0 ∷ decimal slot.0 ∷ decimal at ∷ decimal word ∷ [])) }
{
    put_line(
        out,
        Word::Text("store"),
        &[
            Word::Number(thread.0 as u64),
            Word::Number(slot.0 as u64),
            Word::Number(at.get() as u64),
            Word::Number(word),
        ],
    )
}

fn put_short(out: &mut String, word: &'static str, number: u16) -> Result<(), OutOfMemory>
    ensures { OnOk result (string_bytes out.new ≡ string_bytes out.old ++ line (word.now ∷ decimal number ∷ [])) }
{
    put_line(out, Word::Text(word), &[Word::Number(number as u64)])
}

fn put_prctl(out: &mut String, thread: Thread, args: PrctlArgs) -> Result<(), OutOfMemory>
    ensures { OnOk result (string_bytes out.new ≡ string_bytes out.old
        ++ line (codes "prctl" ∷ decimal thread.0 ∷ decimal args.operation ∷ decimal args.arg2 ∷ decimal args.arg3 ∷ decimal args.arg4 ∷ decimal args.arg5 ∷ [])) }
{
    put_line(
        out,
        Word::Text("prctl"),
        &[
            Word::Number(thread.0 as u64),
            Word::Number(args.operation),
            Word::Number(args.arg2),
            Word::Number(args.arg3),
            Word::Number(args.arg4),
            Word::Number(args.arg5),
        ],
    )
}

fn put_frame_line(
    out: &mut String,
    word: &'static str,
    frame: Frame,
    at: Line,
) -> Result<(), OutOfMemory>
    ensures { OnOk result (string_bytes out.new ≡ string_bytes out.old ++ line (word.now ∷ decimal frame.0 ∷ decimal at ∷ [])) }
{
    put_line(
        out,
        Word::Text(word),
        &[Word::Number(frame.0 as u64), Word::Number(at.get() as u64)],
    )
}

fn put_scrub(out: &mut String, first: Frame, last: Frame) -> Result<(), OutOfMemory>
    ensures { OnOk result (string_bytes out.new ≡ string_bytes out.old ++ line (codes "scrub" ∷ decimal first.0 ∷ decimal last.0 ∷ [])) }
{
    put_line(
        out,
        Word::Text("scrub"),
        &[Word::Number(first.0 as u64), Word::Number(last.0 as u64)],
    )
}

fn put_watch(out: &mut String, threshold: u16, window: u8) -> Result<(), OutOfMemory>
    ensures { OnOk result (string_bytes out.new ≡ string_bytes out.old ++ line (codes "watch" ∷ decimal threshold ∷ decimal window ∷ [])) }
{
    put_line(
        out,
        Word::Text("watch"),
        &[Word::Number(threshold as u64), Word::Number(window as u64)],
    )
}

fn put_fork(out: &mut String, thread: Thread, process: Proc) -> Result<(), OutOfMemory>
    ensures { OnOk result (string_bytes out.new ≡ string_bytes out.old ++ line (codes "fork" ∷ decimal thread.0 ∷ decimal process.0 ∷ [])) }
{
    put_line(
        out,
        Word::Text("fork"),
        &[
            Word::Number(thread.0 as u64),
            Word::Number(process.0 as u64),
        ],
    )
}

fn put_log(out: &mut String, status: u64, addr: u64, misc: u64) -> Result<(), OutOfMemory>
    ensures { OnOk result (string_bytes out.new ≡ string_bytes out.old ++ line (codes "log" ∷ register status ∷ register addr ∷ register misc ∷ [])) }
{
    put_line(
        out,
        Word::Text("log"),
        &[
            Word::Register(status),
            Word::Register(addr),
            Word::Register(misc),
        ],
    )
}

fn put_user(out: &mut String, thread: Thread, ripv: bool, eipv: bool) -> Result<(), OutOfMemory>
    ensures { OnOk result (string_bytes out.new ≡ string_bytes out.old ++ line (codes "raise" ∷ codes "user" ∷ decimal thread.0 ∷ decimal (bit ripv) ∷ decimal (bit eipv) ∷ [])) }
{
    let ripv = u64::from(ripv);
    let eipv = u64::from(eipv);
    put_line(
        out,
        Word::Text("raise"),
        &[
            Word::Text("user"),
            Word::Number(thread.0 as u64),
            Word::Number(ripv),
            Word::Number(eipv),
        ],
    )
}

fn put_kernel(out: &mut String, ripv: bool, eipv: bool) -> Result<(), OutOfMemory>
    ensures { OnOk result (string_bytes out.new ≡ string_bytes out.old ++ line (codes "raise" ∷ codes "kernel" ∷ decimal (bit ripv) ∷ decimal (bit eipv) ∷ [])) }
{
    let ripv = u64::from(ripv);
    let eipv = u64::from(eipv);
    put_line(
        out,
        Word::Text("raise"),
        &[Word::Text("kernel"), Word::Number(ripv), Word::Number(eipv)],
    )
}

fn put_turn(out: &mut String, turn: Go) -> Result<(), OutOfMemory>
    ensures { OnOk result (string_bytes out.new ≡ string_bytes out.old ++ 32 ∷ turn_text turn) }
{
    let cpu = turn.cpu.0;
    match turn.until {
        Until::One => write!(out, " {cpu}"),
        Until::Command => write!(out, " {cpu}."),
        Until::After(kind) => write!(out, " {cpu}@{}", kind_name(kind)),
    }
}

fn put_turns(out: &mut String, turns: &[Go]) -> Result<(), OutOfMemory>
    ensures { OnOk result (string_bytes out.new ≡ string_bytes out.old ++ flat_map (λ turn. 32 ∷ turn_text turn) turns.now) }
{
    for turn in turns {
        put_turn(out, *turn)?;
    }
    Ok(())
}

fn put_schedule(out: &mut String, turns: &[Go]) -> Result<(), OutOfMemory>
    ensures { OnOk result (string_bytes out.new ≡ string_bytes out.old ++ line (schedule_words turns.now)) }
{
    write!(out, "schedule")?;
    put_turns(out, turns)?;
    writeln!(out)?;
    Ok(())
}
