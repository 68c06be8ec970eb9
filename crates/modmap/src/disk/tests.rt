use super::DiskFiles;
use mm_outside::{Failed, Files, ReadAllError};
use std::test::Fail;
use std::{env, fs};

/// The name of a file below a folder for temporary files.
fn name_below(rt: &HostRuntime, folder: &str, last: &str) -> Result<String, Fail> {
    let mut name = env::temp_dir(rt)?;
    name.push(folder)?;
    name.push(last)?;
    Ok(name.into_string())
}

#[test]
fn files_are_read_back(rt: HostRuntime) -> Result<(), Fail> {
    let folder = name_below(&rt, "modmap-disk-files", "")?;
    let _ = fs::remove_dir_all(&rt, folder.as_str());
    let name = name_below(&rt, "modmap-disk-files", "a/b/file")?;
    let mut files = DiskFiles::new(&rt, rt.alloc());
    assert_eq!(rt; files.write_all(name.as_bytes(), b"twelve words"), Ok(()));
    let octets = files.read_all(name.as_bytes(), 12)?;
    assert!(rt; octets.octets() == b"twelve words".as_slice());
    assert!(rt;
        matches!(
            files.read_all(name.as_bytes(), 11),
            Err(ReadAllError::TooLong)
        )
    );
    assert_eq!(rt; (files.read_faults, files.write_faults), (0, 0));
    fs::remove_dir_all(&rt, folder.as_str())?;
    Ok(())
}

#[test]
fn absent_and_unnameable_files(rt: HostRuntime) -> Result<(), Fail> {
    let name = name_below(&rt, "modmap-no-such-folder", "file")?;
    let mut files = DiskFiles::new(&rt, rt.alloc());
    assert!(rt;
        matches!(
            files.read_all(name.as_bytes(), 12),
            Err(ReadAllError::Absent)
        )
    );
    assert_eq!(rt; files.read_faults, 0);
    assert!(rt; matches!(files.read_all(b"\xff", 12), Err(ReadAllError::Failed)));
    assert_eq!(rt; (files.read_faults, files.write_faults), (1, 0));
    assert_eq!(rt; files.write_all(b"\xff", b"x"), Err(Failed));
    assert_eq!(rt; (files.read_faults, files.write_faults), (1, 1));
    Ok(())
}
