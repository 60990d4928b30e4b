//! The limits of a run: sessions, pending sources, and the length of a line.

use crate::script::{PIECES, new_disk, run_in_pieces};
use cdb_front::Status;
use std::test::Fail;

/// A line and its answer, so often; then a line and its answer once.
#[derive(Drop)]
struct Limit {
    line: &'static [u8],
    times: usize,
    last: &'static [u8],
}

#[test]
fn limits_are_kept(rt: HostRuntime) -> Result<(), Fail> {
    let limits = [
        // 64 sessions are open.
        Limit {
            line: b"open\n",
            times: 65,
            last: b"session 64 0\nrefused sessions\n",
        },
        // 64 sources are pending.
        Limit {
            line: b"inline elev -10 46 7 1 1 1 1 500\n",
            times: 65,
            last: b"source 64\nrefused full\n",
        },
    ];
    for limit in &limits {
        let mut script = Vec::new(rt.alloc());
        for _ in 0..limit.times {
            script.extend_from_slice(limit.line)?;
        }
        for piece in PIECES {
            let (status, output) = run_in_pieces(
                rt.alloc(),
                &mut new_disk(rt.alloc(), 0)?,
                script.as_slice(),
                piece,
                0,
                0,
            )?;
            assert_eq!(rt; status, Status::Done);
            assert!(rt; output.written().ends_with(limit.last));
        }
    }
    Ok(())
}

#[test]
fn long_lines_have_one_answer(rt: HostRuntime) -> Result<(), Fail> {
    for length in [4097usize, 8192, 10000] {
        let mut script = vec![in rt.alloc(); b'x'; length]?;
        script.extend_from_slice(b"\nopen\n")?;
        for piece in PIECES {
            let (status, output) = run_in_pieces(
                rt.alloc(),
                &mut new_disk(rt.alloc(), 0)?,
                script.as_slice(),
                piece,
                0,
                0,
            )?;
            assert_eq!(rt; status, Status::Done);
            assert_eq!(rt; output.written(), b"refused long\nsession 1 0\n".as_slice());
        }
    }
    // The longest line that is read, and an input that ends inside a longer one.
    let mut script = vec![in rt.alloc(); b'x'; 4096]?;
    script.push(b'\n')?;
    script.extend_from_slice(&[b'y'; 5000])?;
    let (status, output) = run_in_pieces(
        rt.alloc(),
        &mut new_disk(rt.alloc(), 0)?,
        script.as_slice(),
        4096,
        0,
        0,
    )?;
    assert_eq!(rt; status, Status::Done);
    assert_eq!(rt;
        output.written(),
        b"refused syntax\nrefused long\n".as_slice()
    );
    Ok(())
}
