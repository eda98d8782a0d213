//! Scripts made from a seed.

use crate::checking::check;
use hwp_script::{generate, print};
use std::alloc::Global;
use std::process::Abort;
use std::str;

/// The script of a seed, as it is printed, has these parts.
fn has(rt: &impl Abort, alloc: Global, seed: u64, parts: &[&str]) {
    let script = generate(alloc, seed).expect(rt, "memory");
    let text = print(alloc, &script).expect(rt, "memory");
    drop(script);
    let text = str::from_utf8(text.as_slice()).ok().expect(rt, "a text");
    for part in parts {
        check(rt, text.contains(*part));
    }
}

#[test]
fn a_seed_gives_commands_and_a_schedule(rt: HostRuntime) {
    has(
        &rt,
        rt.alloc(),
        0,
        &[
            "hwp 1\ncpus 4\nframes 256\nkernel 0\nrecovery 1\nearly 0\n",
            "\ncpu 0\nbad 21 49\nstore 4 79 5 903581506\nload 0 43 2\nfsync 0\n",
            "\nload 0 28 40\ncpu 1\nsoft 4\nsoft 46\nstore 1 56 24 3532459528\nbad 43 24\n",
            "\nload 6 53 35\ncpu 3\nfetch 3 58 37\nout 36\nstore 7 70 12 3157803898\nunpoison 35\n",
            "\nsoft 21\nschedule 0 1 2 1 1 0 1 0 2 0 2 3 ",
            " 3 3 2 3 2 1\nend\n",
        ],
    );
}

#[test]
fn another_seed_gives_others(rt: HostRuntime) {
    has(
        &rt,
        rt.alloc(),
        7,
        &[
            "\ncpu 0\nload 0 51 12\nbad 37 48\nstore 0 28 15 1826122445\nload 0 32 3\n",
            "\ncpu 2\nload 2 2 31\nload 2 61 17\nload 2 10 8\nprctl 6 33 1 0 0 0\n",
            "\nprctl 3 33 1 2 0 0\nschedule 2 3 0 3 2 0 0 0 2 0 3 3 ",
        ],
    );
}
