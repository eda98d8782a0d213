ghost use Rattle.std.specs.Prelude.{◌≡◌, ◌+◌, ◌≤◌, ◌^◌, ◌<◌};
ghost use Rattle.hwp_words.specs.Names.{cpu_name, cpu_named, frame_name, frame_named, page_name, page_named};

use hwp_kill::{Cpu, Frame, Page};

/// The number of a frame plus 1, or 0 for none.
pub fn frame_name(frame: Option<Frame>) -> u64
    ensures value { result ≡ frame_name frame }
    ensures below { result ≤ 2 ^ 16 }
{
    match frame {
        Some(frame) => u64::from(frame.0) + 1,
        None => 0,
    }
}

/// The number of a page plus 1, or 0 for none.
pub(crate) fn page_name(page: Option<Page>) -> u64
    ensures value { result ≡ page_name page }
    ensures below { result ≤ 2 ^ 16 }
{
    match page {
        Some(page) => u64::from(page.0) + 1,
        None => 0,
    }
}

/// The number of a processor plus 1, or 0 for none.
pub(crate) fn cpu_name(cpu: Option<Cpu>) -> u64
    ensures value { result ≡ cpu_name cpu }
    ensures below { result ≤ 2 ^ 8 }
{
    match cpu {
        Some(cpu) => u64::from(cpu.0) + 1,
        None => 0,
    }
}

/// The frame that a number names. Numbers of frames have 16 bits; a greater one counts modulo 2^16.
pub fn frame_named(name: u64) -> Option<Frame>
    ensures { result ≡ frame_named name }
{
    if name == 0 {
        return None;
    }
    Some(Frame(((name - 1) % 65536) as u16))
}

/// The page that a number names. Numbers of pages have 16 bits; a greater one counts modulo 2^16.
pub fn page_named(name: u64) -> Option<Page>
    ensures { result ≡ page_named name }
{
    if name == 0 {
        return None;
    }
    Some(Page(((name - 1) % 65536) as u16))
}

/// The processor that a number names. Numbers of processors have 8 bits; a greater one counts modulo 2^8.
pub(crate) fn cpu_named(name: u64) -> Option<Cpu>
    ensures { result ≡ cpu_named name }
{
    if name == 0 {
        return None;
    }
    Some(Cpu(((name - 1) % 256) as u8))
}
