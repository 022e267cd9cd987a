use crate::open_doors;
use command_words::ServeWords;
use std::test::Fail;

#[test]
fn a_door_for_each_worker(rt: HostRuntime) -> Result<(), Fail> {
    let words = ServeWords {
        port: 47_113,
        workers: 3,
        connections: 8,
    };
    let doors = open_doors(&rt, words)?;
    assert!(rt; doors.len() == 3);
    Ok(())
}
