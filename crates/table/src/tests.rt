// A sheet of two lines: what the table answers as they come and go.
use crate::Table;
use std::test::Fail;

#[test]
fn lines_come_and_go(rt: HostRuntime) -> Result<(), Fail> {
    let mut bytes = [255; 4];
    let Some(mut table) = Table::new(&mut bytes, 4) else {
        return Err(Fail::new("four slots fit four bytes"));
    };
    assert!(rt; table.before(0, 1) && !table.before(1, 0));
    assert!(rt; table.between(2, 0, 1));
    assert!(rt; table.between(3, 2, 1));
    assert!(rt; table.before(0, 3) && table.before(2, 3) && !table.before(3, 2));
    assert!(rt; !table.between(3, 1, 2), "1 does not stand before 2");
    assert!(rt; table.let_go(3));
    assert!(rt; table.before(2, 1) && !table.before(2, 3));
    Ok(())
}

#[test]
fn too_few_bytes_are_refused() -> Result<(), Fail> {
    let mut bytes = [0; 3];
    match Table::new(&mut bytes, 4) {
        None => Ok(()),
        Some(_) => Err(Fail::new("four slots do not fit three bytes")),
    }
}
