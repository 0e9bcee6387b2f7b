//! Files that can't be loaded or stored: each refusal names its own cause, and none of them is want of memory.
use crate::common::{stock, words};
use command_words::read_words;
use crash_disk::{MemCabinet, MemDisk, MemEntropy, MemSink, MemSource};
use geli_core::{Drawers, Outside, run};
use std::alloc::Global;
use std::test::Fail;

// A cabinet with a key file of 5,000 bytes and a passphrase of 1,025, of which these calls fail.
fn cabinet(alloc: Global, fails: &[u64]) -> Result<MemCabinet, Fail> {
    let mut files = stock(alloc)?;
    files.put("large", &[0x33; 5000])?;
    files.put("long", &[b'a'; 1025])?;
    files.fail_calls(fails)?;
    Ok(files)
}

// Whether the words print this, if these calls of the cabinet fail.
fn prints(
    alloc: Global,
    shelf: &mut Drawers<MemDisk>,
    line: &str,
    fails: &[u64],
    want: &str,
) -> Result<bool, Fail> {
    let words = words(alloc, line)?;
    let said = read_words(alloc, &words)?;
    let mut input = MemSource::new(alloc, &[], &[], &[])?;
    let mut output = MemSink::new(alloc, &[], &[], 256)?;
    let mut files = cabinet(alloc, fails)?;
    let mut entropy = MemEntropy::new(alloc, &[0x5a; 384])?;
    let mut outside = Outside::new(&mut input, &mut output, &mut files, &mut entropy);
    run(alloc, &said, shelf, &mut outside);
    Ok(output.bytes() == want.as_bytes())
}

// Words, the call of the cabinet that fails, if one does, and what is printed. A refusal gives a word by its number.
const LINES: [(&str, &[u64], &str); 9] = [
    ("init -K k -J p -i 10 a.img", &[], "ok\n"),
    (
        "attach -C -k none -j p a.img",
        &[],
        "error 27 FileAbsent 3\n",
    ),
    (
        "attach -C -k k -j none a.img",
        &[],
        "error 27 FileAbsent 5\n",
    ),
    (
        "attach -C -k k -j long a.img",
        &[],
        "error 30 FileTooLong 5 1024\n",
    ),
    (
        "attach -C -k k -j p a.img",
        &[1],
        "error 28 CabinetFault 3\n",
    ),
    (
        "attach -C -k k -j p a.img",
        &[2],
        "error 28 CabinetFault 5\n",
    ),
    ("backup a.img b", &[1], "error 28 CabinetFault 2\n"),
    ("init -P -K large a.img", &[], "ok\n"),
    (
        "attach -C -p -k large -k k a.img",
        &[],
        "error 15 WrongKey\n",
    ),
];

#[test]
fn each_refusal_of_a_file_has_its_cause(rt: HostRuntime) -> Result<(), Fail> {
    let alloc = rt.alloc();
    let mut shelf = Drawers::new(alloc)?;
    assert!(&rt; shelf.add("a.img", MemDisk::new(alloc, 64, 64)?).is_ok());
    for (line, fails, want) in LINES {
        assert!(&rt; prints(alloc, &mut shelf, line, fails, want)?, "{line}");
    }
    assert!(&rt;
        prints(
            alloc,
            &mut shelf,
            "attach -C -p -k large a.img",
            &[],
            "ok\n"
        )?
    );
    Ok(())
}
