use rh_probe::*;

// At 3 bits 1, 9, 17 and 22 have home 4. A cell holds its key plus 1.
#[test]
fn looks_decide(rt: HostRuntime) {
    assert_eq!(rt; look(3, 9, &[2]), Look::More);
    assert_eq!(rt; look(3, 9, &[2, 10]), Look::Here(1));
    assert_eq!(rt; look(3, 22, &[2, 10, 18, 0]), Look::Goes(3));
    assert_eq!(rt; look(3, 1, &[10]), Look::Goes(0));
}

// 16, 21, 2, 5 and 8 at 3 bits: 8, 16 and 21 have home 7, 2 has home 1 and 5 home 0.
#[test]
fn scans_end(rt: HostRuntime) {
    assert_eq!(rt; free_after(&[2, 10, 18, 0, 0], 1), Some(3));
    assert_eq!(rt; free_after(&[2, 10, 18], 0), None);
    let from_seven = [9, 17, 22, 6, 0];
    assert_eq!(rt; stop_after(3, 7, &from_seven, 0), Some(4));
    assert_eq!(rt; stop_after(3, 7, &[9, 6, 3], 0), Some(1));
    assert_eq!(rt; stop_after(3, 7, &[9, 17], 0), None);
    assert_eq!(rt; stop_after(3, 7, &[0, 0], 2), None);
    assert_eq!(rt; stop_after(3, 7, &[0, 0], usize::MAX), None);
}
