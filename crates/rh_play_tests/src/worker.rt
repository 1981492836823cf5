use rh_ledger::Kind;
use rh_words::{Rooms, Shape};
use rh_worker::*;
use std::test::*;

const SHAPE: Shape = Shape {
    bits: 3,
    workers: 2,
    keys: 0,
    rooms: Rooms {
        descriptors: 32,
        marks: 64,
    },
};

#[test]
fn a_worker_begins_a_key(rt: HostRuntime) -> Result<(), Fail> {
    let mut worker = Worker::new(rt.alloc(), &SHAPE, Kind::Insert, 1, &[0; 8])?;
    assert!(rt; worker.is_idle());
    worker.begin_round(&[0; 8]);
    assert!(rt; worker.is_idle());
    worker.begin(9);
    assert!(rt; !worker.is_idle() && !worker.is_spent());
    assert_eq!(rt; worker.key, 9);
    assert!(rt; matches!(worker.stage, KeyStage::Scan { seen: 0, .. }));
    Ok(())
}
