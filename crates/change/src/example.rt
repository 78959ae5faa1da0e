// A change is written by its parts, and read again.
use crate::add::AddView;
use crate::names::{Line, Name, Sheet};
use crate::view::ChangeView;
use crate::view::writing::bytes_of_change;
use std::test::Fail;

#[test]
fn parts_are_written(rt: HostRuntime) -> Result<(), Fail> {
    let adds = [AddView {
        after: Line::START,
        before: Line::END,
        text: b"A",
    }];
    let bytes = bytes_of_change(rt.alloc(), Name(17), Sheet(5), &[], &adds, &[1024])?;
    let written = [
        1, 0, 0, 0, 17, 5, 0, 1, 0, 0, 0, 0, 0, 0, 0, 1, 1, 65, 1, 0, 0, 4, 0,
    ];
    assert!(rt; bytes.as_slice() == written.as_slice());
    let Ok(view) = ChangeView::read_whole(bytes.as_slice()) else {
        return Err(Fail::new("what is written reads back"));
    };
    assert!(rt; view.sheet == Sheet(5));
    Ok(())
}
