// Saves: what is denied, how many blocks there are, and their bytes.
use crate::squares::filled;
use history::Denial;
use outside_parts::at;
use std::test::Fail;

#[test]
fn denials(rt: HostRuntime) -> Result<(), Fail> {
    let mut rows = [at(0, 0, 0); 2];
    let archive = filled(2, 1, &mut rows).ok_or("members")?;
    let mut block = [7; 513];
    for (lent, number, size, denial) in [
        (1, 9, 9, Denial::StrangeRows),
        (0, 0, 512, Denial::StrangeRows),
        (2, 9, 511, Denial::WrongLength),
        (2, 0, 513, Denial::WrongLength),
        (2, 0, 0, Denial::WrongLength),
        (2, 1, 512, Denial::NoSuchBlock),
        (2, usize::MAX, 512, Denial::NoSuchBlock),
    ] {
        assert_eq!(rt;
            archive.save(&rows[..lent], number, &mut block[..size]),
            Err(denial)
        );
    }
    assert!(rt; block == [7; 513]);
    Ok(())
}

#[test]
fn no_members(rt: HostRuntime) -> Result<(), Fail> {
    let mut rows = [at(5, 5, 5); 3];
    let archive = filled(2, 0, &mut rows).ok_or("members")?;
    let mut block = [7; 512];
    assert_eq!(rt; archive.blocks(), 1);
    assert_eq!(rt;
        archive.save(&rows, 1, &mut block),
        Err(Denial::NoSuchBlock)
    );
    assert_eq!(rt; archive.save(&rows, 0, &mut block), Ok(0));
    assert!(rt; block[..8] == [1, 0, 2, 0, 0, 0, 0, 0]);
    assert!(rt; block[8..508] == [0; 500]);
    assert!(rt; block[508..] == [0, 3, 5, 240]);
    Ok(())
}

#[test]
fn two_blocks(rt: HostRuntime) -> Result<(), Fail> {
    let mut rows = [at(0, 0, 0); 40];
    let archive = filled(2, 36, &mut rows).ok_or("members")?;
    let mut block = [7; 512];
    assert_eq!(rt; archive.blocks(), 2);
    assert_eq!(rt;
        archive.save(&rows, 2, &mut block),
        Err(Denial::NoSuchBlock)
    );
    assert!(rt; block == [7; 512]);
    assert_eq!(rt; archive.save(&rows, 0, &mut block), Ok(35));
    assert!(rt; block[..8] == [1, 35, 2, 0, 0, 0, 0, 0]);
    assert!(rt; block[8..22] == [1, 12, 0, 0, 3, 232, 0, 0, 0, 0, 0, 0, 0, 255]);
    assert!(rt; block[484..498] == [1, 12, 0, 0, 4, 10, 0, 0, 0, 34, 0, 0, 0, 221]);
    assert!(rt; block[498..508] == [0; 10]);
    assert!(rt; log_block::check(&block, 2).is_ok());
    assert_eq!(rt; archive.save(&rows, 1, &mut block), Ok(1));
    assert!(rt; block[..8] == [1, 1, 2, 0, 0, 0, 0, 1]);
    assert!(rt; block[8..22] == [1, 12, 0, 0, 4, 11, 0, 0, 0, 35, 0, 0, 0, 220]);
    assert!(rt; block[22..508] == [0; 486]);
    assert!(rt; log_block::check(&block, 2).is_ok());
    Ok(())
}

#[test]
fn room_in_a_block(rt: HostRuntime) -> Result<(), Fail> {
    for (objectives, room) in [(2, 35), (3, 27), (4, 22), (5, 19), (6, 16)] {
        for (members, blocks) in [(room, 1), (room + 1, 2)] {
            let mut rows = [at(0, 0, 0); 40];
            let archive = filled(objectives, members, &mut rows).ok_or("members")?;
            assert_eq!(rt; archive.blocks(), blocks);
            let mut block = [7; 512];
            assert_eq!(rt; archive.save(&rows, 0, &mut block), Ok(usize::from(room)));
        }
    }
    Ok(())
}
