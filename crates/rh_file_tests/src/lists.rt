ghost use Rattle.std.specs.Prelude.{◌<◌, ◌≤◌, false};

use crate::files::THREE_KEYS;
use crate::numbers::{ACCEPTED, NOT_A_KEY, OUT_OF_RANGE, sevens};
use rh_bytes::{Counted, Nobody, Progress};
use rh_cutting::KeyList;
use rh_faulty::FaultyReader;
use rh_forks::{Team, Workers};
use rh_key_files::KeyFault;
use rh_lists::*;
use rh_numbers::TextFault;
use std::alloc::Global;
use std::test::*;
use std::thread::Threads;

// The keys that so many workers read, in blocks of so many bytes.
fn list_of<T: Threads + Sync>(
    rt: &T,
    alloc: Global,
    workers: usize,
    block_bytes: usize,
    bytes: &[u8],
) -> Result<Vec<u64>, ListFault>
    requires workers { 0 < workers }
    requires block { (0 < block_bytes) × (block_bytes ≤ 16777216) }
{
    let team = Team {
        rt,
        alloc,
        workers: Workers { count: workers },
    };
    let mut blocks = Blocks::up_to(alloc, block_bytes);
    let list = read_list(&team, &mut blocks, &mut Counted::new(bytes), &mut Nobody)?;
    let mut keys = Vec::new(alloc);
    for piece in list.pieces() {
        let Ok(()) = keys.extend_from_slice(piece) else {
            return Err(ListFault::Text(TextFault::Memory));
        };
    }
    Ok(keys)
}

#[test]
fn texts_are_read_whoever_reads_them(rt: HostRuntime) -> Result<(), Fail> {
    for &(text, keys) in ACCEPTED {
        for workers in 1..5usize {
            for bytes in 1..9usize {
                let read = list_of(&rt, rt.alloc(), workers, bytes, text)?;
                assert_eq!(rt; read.as_slice(), keys, "{text:?} {workers} {bytes}");
            }
        }
    }
    Ok(())
}

#[test]
fn the_first_bad_line_is_told_whoever_reads_it(rt: HostRuntime) {
    for workers in 1..5usize {
        for bytes in 1..9usize {
            for &(text, line) in NOT_A_KEY {
                assert_eq!(rt;
                    list_of(&rt, rt.alloc(), workers, bytes, text).err(),
                    Some(ListFault::Text(TextFault::NotAKey { line })),
                    "{text:?} {workers} {bytes}"
                );
            }
            for &(text, line) in OUT_OF_RANGE {
                assert_eq!(rt;
                    list_of(&rt, rt.alloc(), workers, bytes, text).err(),
                    Some(ListFault::Text(TextFault::OutOfRange { line })),
                    "{text:?} {workers} {bytes}"
                );
            }
        }
    }
}

// The later of two bad lines may be met first.
#[test]
fn an_earlier_bad_line_is_told_before_a_later_one(rt: HostRuntime) {
    let text = b"1\n2\nx\n3\n4\n99999999999999999999\n5\ny\n";
    for workers in 1..9usize {
        assert_eq!(rt;
            list_of(&rt, rt.alloc(), workers, BLOCK_BYTES, text).err(),
            Some(ListFault::Text(TextFault::NotAKey { line: 3 }))
        );
    }
}

#[test]
fn a_key_file_is_told_by_its_first_bytes(rt: HostRuntime) -> Result<(), Fail> {
    for workers in 1..3usize {
        assert_eq!(rt;
            list_of(&rt, rt.alloc(), workers, 5, &THREE_KEYS)?.as_slice(),
            [17, 1, 9].as_slice()
        );
        for (bytes, fault) in [
            (b"RHK1".as_slice(), ListFault::Keys(KeyFault::Short)),
            (b"RHK3", ListFault::Text(TextFault::NotAKey { line: 1 })),
            (b"RHK", ListFault::Text(TextFault::NotAKey { line: 1 })),
            (
                b"RHK1\0\0\0\0\0\0\0\x01\0\0\0\0\0\0\0\0",
                ListFault::Keys(KeyFault::BadKey { index: 0 }),
            ),
            (
                b"RHK2\0\0\0\0\0\0\0\x01\0\0\0\0\0\0\0\0\0",
                ListFault::Keys(KeyFault::Long),
            ),
            // More keys than any memory has room for, which do not come.
            (
                b"RHK2\xff\xff\xff\xff\xff\xff\xff\xff\0\0\0\0\0\0\0\0",
                ListFault::Keys(KeyFault::Short),
            ),
        ] {
            assert_eq!(rt;
                list_of(&rt, rt.alloc(), workers, 5, bytes).err(),
                Some(fault)
            );
        }
    }
    Ok(())
}

// Who is told how many bytes were read.
#[derive(Drop)]
struct Told {
    bytes: u64,
}

impl Progress for Told {
    ghost stands = { λ _. false };

    fn read(&mut self, bytes: usize) {
        self.bytes = self.bytes.wrapping_add(bytes as u64);
    }

    fn cut(&mut self) {}

    fn done(&mut self, _parts: usize, _of: usize) {}

    fn clear(&mut self) {}
}

// More keys than the other commands take.
#[test]
fn a_text_has_more_than_a_million_keys(rt: HostRuntime) -> Result<(), Fail> {
    let text = sevens(rt.alloc(), 1_000_000, b"9")?;
    let mut told = Told { bytes: 0 };
    let mut reader = Counted::new(text.as_slice());
    let team = Team {
        rt: &rt,
        alloc: rt.alloc(),
        workers: Workers { count: 4 },
    };
    let mut blocks = Blocks::up_to(rt.alloc(), 100_000);
    let list = read_list(&team, &mut blocks, &mut reader, &mut told)?;
    assert_eq!(rt; counted(&list), (1_000_001, 9));
    assert_eq!(rt; told.bytes, 2_000_001);
    Ok(())
}

// How many keys the list has, and the last of them.
fn counted(list: &KeyList) -> (usize, u64) {
    let (mut count, mut last) = (0usize, 0);
    for piece in list.pieces() {
        for key in piece {
            count = count.wrapping_add(1);
            last = *key;
        }
    }
    (count, last)
}

// What a long text leaves in the blocks is no part of the short one behind it.
#[test]
fn lists_are_read_into_the_same_blocks(rt: HostRuntime) -> Result<(), Fail> {
    for workers in 1..3usize {
        let team = Team {
            rt: &rt,
            alloc: rt.alloc(),
            workers: Workers { count: workers },
        };
        let mut blocks = Blocks::new(rt.alloc());
        for many in [3usize, 40_000, 100_000, 5, 700_000, 0, 40_000] {
            let text = sevens(rt.alloc(), many, b"9")?;
            let mut reader = Counted::new(text.as_slice());
            let list = read_list(&team, &mut blocks, &mut reader, &mut Nobody)?;
            assert_eq!(rt; counted(&list), (many.wrapping_add(1), 9));
        }
    }
    Ok(())
}

#[test]
fn a_key_file_has_more_than_a_million_keys(rt: HostRuntime) -> Result<(), Fail> {
    let mut file = Vec::new(rt.alloc());
    file.extend_from_slice(b"RHK2\0\0\0\0\0\x0f\x42\x41")?;
    for _ in 0..1_000_001 {
        file.extend_from_slice(b"\0\0\0\0\0\0\0\x07")?;
    }
    let keys = list_of(&rt, rt.alloc(), 2, BLOCK_BYTES, &file)?;
    assert_eq!(rt; keys.len(), 1_000_001);
    assert!(rt; keys.iter().all(|key| *key == 7));
    Ok(())
}

#[test]
fn each_read_of_a_list_fails(rt: HostRuntime) -> Result<(), Fail> {
    let text = b"17\n1\n9\n17\nx\n";
    for workers in 1..3usize {
        let team = Team {
            rt: &rt,
            alloc: rt.alloc(),
            workers: Workers { count: workers },
        };
        for n in 1..20u64 {
            let mut reader = Counted::new(FaultyReader::new(text.as_slice(), n));
            let mut blocks = Blocks::up_to(rt.alloc(), 3);
            let outcome = read_list(&team, &mut blocks, &mut reader, &mut Nobody);
            let fault = if n < 5 {
                TextFault::Read
            } else {
                TextFault::NotAKey { line: 5 }
            };
            assert_eq!(rt; outcome.err(), Some(ListFault::Text(fault)), "at {n}");
        }
    }
    Ok(())
}

#[test]
fn a_line_of_zeros_takes_no_memory(rt: HostRuntime) -> Result<(), Fail> {
    let zeros = vec![in rt.alloc(); b'0'; 100_000]?;
    assert_eq!(rt;
        list_of(&rt, rt.alloc(), 3, 1000, &zeros)?.as_slice(),
        [0].as_slice()
    );
    let nuls = vec![in rt.alloc(); 0u8; 100_000]?;
    assert_eq!(rt;
        list_of(&rt, rt.alloc(), 3, 1000, &nuls).err(),
        Some(ListFault::Text(TextFault::NotAKey { line: 1 }))
    );
    Ok(())
}
