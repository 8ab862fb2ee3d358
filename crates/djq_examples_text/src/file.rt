use djq_disk::{Disk, DiskDid, DiskLen, DiskOpen, DiskRead};
use djq_system::FileDisk;
use std::marker::Brand;
use std::test::Fail;
use std::{env, fs, process};

/// What is written outlives the disk that wrote it, and while that one has the file no other opens it.
#[test]
fn a_file_is_written_and_read_by_one_at_a_time(rt: HostRuntime) -> Result<(), Fail> {
    let name = format!(in rt.alloc(); "djq-file-{}", process::id(rt.process()))?;
    let path = env::temp_dir(&rt)?
        .join(rt.alloc(), name.as_str())?
        .into_string();
    let mut disk = FileDisk::<HostRuntime, Brand>::new(rt);
    assert!(rt; disk.open(path.as_str()) == DiskOpen::Ready);
    assert!(rt; disk.len() == DiskLen::Len(0));
    assert!(rt; disk.write_at(2, b"abc") == DiskDid::Done);
    assert!(rt; disk.sync() == DiskDid::Done);
    let mut other = FileDisk::<HostRuntime, Brand>::new(rt);
    assert!(rt; other.open(path.as_str()) == DiskOpen::Failed);
    drop(disk);
    assert!(rt; other.open(path.as_str()) == DiskOpen::Ready);
    assert!(rt; other.len() == DiskLen::Len(5));
    let mut buf = [7; 8];
    assert!(rt; other.read(1, &mut buf) == DiskRead::Got(4));
    assert!(rt; buf == *b"\0abc\x07\x07\x07\x07");
    assert!(rt; other.read(5, &mut buf) == DiskRead::End);
    drop(other);
    fs::remove_file(&rt, path.as_str())?;
    Ok(())
}
