//! Tests of frames.

use jl_heap::{FrameEnd, FrameKind, Frames, NewFrame, Value};
use jl_prim::MethodId;
use std::test::*;

fn frame(max_stack: u16, max_locals: u16) -> NewFrame {
    NewFrame {
        kind: FrameKind::Method(MethodId(1)),
        max_stack,
        max_locals,
    }
}

// So many frames in a row are pushed, where the first that is refused ends them.
fn pushes(frames: &mut Frames, times: u32, frame: NewFrame) -> Result<bool, Fail> {
    for _ in 0..times {
        match frames.push(frame) {
            Ok(()) => {}
            Err(FrameEnd::Deep) => return Ok(false),
            Err(FrameEnd::NoMemory) => return Err(Fail::new("no memory")),
        }
    }
    Ok(true)
}

// The limits are at 2,048 frames and at 4,194,304 slots. 32 of the largest frames have 4,194,240.
#[test]
fn frames_are_deep_where_they_pass_the_limits(rt: HostRuntime) -> Result<(), Fail> {
    let tables: [[(u32, u16, u16, bool); 5]; 2] = [
        [
            (32, 65_535, 65_535, true),
            (1, 33, 32, false),
            (1, 32, 32, true),
            (1, 0, 1, false),
            (1, 0, 0, true),
        ],
        [
            (1, 5, 2, true),
            (2_046, 0, 0, true),
            (1, 1, 1, true),
            (1, 0, 0, false),
            (1, 1, 1, false),
        ],
    ];
    for table in &tables {
        let mut frames = Frames::new(rt.alloc(), 1);
        for (times, max_stack, max_locals, want) in table {
            let got = pushes(&mut frames, *times, frame(*max_stack, *max_locals))?;
            assert_eq!(rt; got, *want, "{times} of {max_stack} and {max_locals}");
        }
        // one that is left makes room for one
        assert!(rt; frames.depth() > 0);
        frames.leave();
        assert!(rt; pushes(&mut frames, 1, frame(0, 0))?);
        assert!(rt; !pushes(&mut frames, 1, frame(0, 1))?);
    }
    Ok(())
}

// A long in two locals and on the stack.
#[test]
fn frame_holds_a_long_in_two_slots(rt: HostRuntime) -> Result<(), Fail> {
    let mut frames = Frames::new(rt.alloc(), 1);
    frames.push(frame(2, 2))?;
    assert!(rt; frames.depth() > 0);
    assert!(rt; frames.max_locals() == 2);
    frames.set_local(0, Value::Long(-1));
    assert!(rt; frames.max_locals() == 2);
    assert_eq!(rt;
        (frames.local(0), frames.local(1)),
        (Value::Long(-1), Value::Top)
    );
    assert!(rt; frames.room() == 2);
    frames.put(Value::Long(-1));
    assert!(rt; frames.room() == 1);
    frames.put(Value::Top);
    assert_eq!(rt;
        (frames.peek(0), frames.peek(1), frames.peek(2)),
        (Some(Value::Top), Some(Value::Long(-1)), None)
    );
    assert_eq!(rt; (frames.pop(), frames.room()), (Some(Value::Top), 1));
    frames.clear();
    assert_eq!(rt;
        (
            frames.pop(),
            frames.room(),
            frames.kind_at(0),
            frames.room_below()
        ),
        (None, 2, Some(FrameKind::Method(MethodId(1))), None)
    );
    Ok(())
}
