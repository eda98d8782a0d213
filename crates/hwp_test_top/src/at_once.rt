//! Processors that meet inside their commands: they move at the same time, each on a thread of its own.

use crate::checking::check;
use crate::gates::{Hold, MeetingGate, bit};
use crate::helpers::{call_run, leaves};
use hwp_top::Point;

/// One processor stores while the other one's load begins and ends, and that one loads again when it has stored.
const TWO: &[u8] = b"\
hwp 1
cpus 2
frames 20
proc 0
proc 1
thread 0 0 0 handler
thread 1 1 1 handler
page 0 anon
page 1 anon
trans 0 0 0
trans 1 1 1
cpu 0
store 0 0 0 1
cpu 1
load 1 1 0
load 1 1 0
end
";

/// The answers of both.
const ANSWERED: &[u8] = b"\
cpu 0 1
0 stored 0 2
cpu 1 2
0 value 0 1 2
1 value 0 1 3
end
";

/// Eight processors with a bad line each.
const EIGHT: &[u8] = b"\
hwp 1\ncpus 8\nframes 8\ncpu 0\nbad 0 0\ncpu 1\nbad 1 0\ncpu 2\nbad 2 0\ncpu 3\nbad 3 0\ncpu 4\nbad 4 0\ncpu 5\nbad 5 0\n\
cpu 6\nbad 6 0\ncpu 7\nbad 7 0\nend\n";

const EIGHT_DONE: &[u8] = b"\
hwp-report 1
stop none
count 0
frame 0 free bad 1 weak 0
frame 1 free bad 1 weak 0
frame 2 free bad 1 weak 0
frame 3 free bad 1 weak 0
frame 4 free bad 1 weak 0
frame 5 free bad 1 weak 0
frame 6 free bad 1 weak 0
frame 7 free bad 1 weak 0
cpu 0 1
0 done
cpu 1 1
0 done
cpu 2 1
0 done
cpu 3 1
0 done
cpu 4 1
0 done
cpu 5 1
0 done
cpu 6 1
0 done
cpu 7 1
0 done
end
";

/// A page of a file is lost, which both processors have open.
const LOSS: &[u8] = b"\
hwp 1\ncpus 2\nframes 3\nfile 0\nproc 0\nthread 0 0 0 handler\npage 0 file 0 fill 9\ntrans 0 0 0\ncpu 0\nstore 0 0 0 4\ninject 0\n\
fsync 0\nfsync 0\ncpu 1\nfsync 0\nfsync 0\nend\n";

/// Each is told once.
const TOLD: &[u8] = b"\
hwp-report 1
stop none
count 1
file 0 lost 1
frame 0 handled bad 0 weak 0
poisoned 0 0 1 sw filedirty recovered
frame 1 free bad 0 weak 0
frame 2 free bad 0 weak 0
page 0 4
in 0 0
map 0 0 0
store 0 0 0 0 0 4
fail 0 1 filedirty opt - 1 0
seen 0 default 0
cpu 0 4
0 stored 0 2
1 recovered
2 eio 1
3 done
cpu 1 2
0 eio 1
1 done
end
";

#[test]
fn one_answers_while_the_other_is_inside_its_command(rt: HostRuntime) {
    let stored = bit(0, 0, Point::Answered);
    let holds = [
        Hold {
            at: bit(0, 0, Point::Begun),
            until: bit(1, 0, Point::Answered),
        },
        Hold {
            at: bit(1, 0, Point::Begun),
            until: bit(0, 0, Point::Begun),
        },
        Hold {
            at: bit(1, 1, Point::Begun),
            until: stored,
        },
    ];
    let gate = MeetingGate::new(&holds);
    let left = call_run(&rt, rt.alloc(), &["run"], TWO, &[], (4096, &[]), &gate);
    // Both points of one command of processor 0, and of two of processor 1.
    check(&rt, !gate.is_missed() & (gate.came() == 0xf03));
    check(&rt, left.reported & (left.status == 0));
    check(&rt, left.out.bytes().ends_with(ANSWERED));
}

#[test]
fn eight_are_inside_their_commands_at_once(rt: HostRuntime) {
    let mut all = 0;
    for cpu in 0..8 {
        all |= bit(cpu, 0, Point::Begun);
    }
    let mut holds = [Hold { at: 0, until: all }; 8];
    for cpu in 0..8 {
        holds[usize::from(cpu)].at = bit(cpu, 0, Point::Begun);
    }
    let gate = MeetingGate::new(&holds);
    let left = call_run(&rt, rt.alloc(), &["run"], EIGHT, &[], (4096, &[]), &gate);
    // Both points of one command of each.
    check(
        &rt,
        !gate.is_missed() & (gate.came() == 0x0303_0303_0303_0303),
    );
    leaves(&rt, left, true, 0, EIGHT_DONE, b"");
}

#[test]
fn each_thread_is_told_of_a_loss_once(rt: HostRuntime) {
    // Processor 1 asks once the failure is answered, and has begun before.
    let holds = [Hold {
        at: bit(1, 0, Point::Begun),
        until: bit(0, 1, Point::Answered),
    }];
    let gate = MeetingGate::new(&holds);
    let left = call_run(&rt, rt.alloc(), &["run"], LOSS, &[], (4096, &[]), &gate);
    // Both points of four commands of processor 0, and of two of processor 1.
    check(&rt, !gate.is_missed() & (gate.came() == 0xfff));
    leaves(&rt, left, true, 0, TOLD, b"");
}
