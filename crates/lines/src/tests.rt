// Two lines come, the second before the first, and go again.
use crate::Lines;
use change::add::AddView;
use change::names::Line;
use std::test::Fail;

fn between(after: u32, before: u32) -> AddView<'static> {
    AddView {
        after: Line(after),
        before: Line(before),
        text: b"",
    }
}

#[test]
fn lines_come_and_go(rt: HostRuntime) -> Result<(), Fail> {
    let mut bytes = [0; 8];
    let Some(mut lines) = Lines::new(rt.alloc(), &mut bytes, 8)? else {
        return Err(Fail::new("eight slots fit eight bytes"));
    };
    let adds = [between(0, 1), between(0, 1024)];
    assert!(rt; lines.free() >= 2);
    let Some(slots) = lines.prepare(1024, &adds) else {
        return Err(Fail::new("the start stands before the end and before 1024"));
    };
    assert!(rt; !lines.has(1024), "its slot is not marked yet");
    lines.commit(1024, slots.as_slice());
    assert!(rt; lines.before(1025, 1024) && !lines.before(1024, 1025));
    lines.let_go(1024, 2);
    assert!(rt; !lines.has(1024) && lines.before(0, 1));
    Ok(())
}
