//! Papers of the system.
use crate::folders::mode_of;
use desk_files::{PaperFiles, SystemPapers};
use desk_outside::{Papers, Written};
use express_words::outside::{Counted, Source};
use std::fs;
use std::os::unix::fs::symlink;
use std::test::Fail;

const LETTERS: &str = "papers_tests.letters";

type Files<'a> = PaperFiles<SystemPapers<'a>>;

// Whether these are the next bytes of a source, which are fewer than 16.
fn gives<S: Source>(source: &mut S, bytes: &[u8]) -> bool {
    let mut found = [0; 16];
    match source.take(&mut found) {
        Ok(count) => count <= 16 && &found[..count] == bytes,
        Err(_) => false,
    }
}

// Whether the file at this path has these bytes.
fn has(papers: &mut Files<'_>, path: &str, bytes: &[u8]) -> bool {
    match papers.read(path) {
        Ok(mut paper) => gives(&mut paper, bytes),
        Err(_) => false,
    }
}

// What became of a letter's file.
fn writes(papers: &mut Files<'_>, name: &str, bytes: &[u8]) -> Option<Written> {
    papers.write(LETTERS, name, bytes).ok()
}

fn reads(papers: &mut Files<'_>, path: &str) -> bool {
    papers.read(path).is_ok()
}

fn has_counted(papers: &Files<'_>, faults: u64) -> bool {
    papers.faults() == faults
}

const ONE: &str = "papers_tests.letters/one.txt";

// A letter's file is new, and stays as it is.
fn written(papers: &mut Files<'_>) -> [bool; 4] {
    [
        writes(papers, "one.txt", b"a letter") == Some(Written::New),
        writes(papers, "one.txt", b"a letter") == Some(Written::Before),
        writes(papers, "one.txt", b"another").is_none(),
        has(papers, ONE, b"a letter"),
    ]
}

fn counted(papers: &mut Files<'_>) -> [bool; 4] {
    [
        !reads(papers, "papers_tests.letters/two.txt"),
        has_counted(papers, 2),
        writes(papers, "none/one.txt", b"nowhere").is_none(),
        has_counted(papers, 3),
    ]
}

#[test]
fn a_paper_is_written_whole_and_never_replaced(rt: HostRuntime) -> Result<(), Fail> {
    let mut papers = PaperFiles::new(SystemPapers::new(&rt));
    let (written, counted) = (written(&mut papers), counted(&mut papers));
    let mode = mode_of(&rt, ONE)?;
    fs::remove_dir_all(&rt, LETTERS)?;
    assert!(rt; written == [true; 4] && counted == [true; 4] && mode == 0o600);
    Ok(())
}

const VICTIM: &str = "papers_tests.victim";

const PART: &str = "papers_tests.planted/.one.txt.part";

// A link in the place of a file that isn't whole yet, and one in the place of the letter itself.
fn planted(rt: &HostRuntime) -> Result<[bool; 4], Fail> {
    let mut papers = PaperFiles::new(SystemPapers::new(rt));
    symlink(rt, "../papers_tests.victim", PART)?;
    symlink(rt, "../papers_tests.victim", "papers_tests.planted/two.txt")?;
    Ok([
        papers.write(PLANTED, "one.txt", b"a letter") == Ok(Written::New),
        has(&mut papers, "papers_tests.planted/one.txt", b"a letter"),
        papers.write(PLANTED, "two.txt", b"mine").is_err(),
        !fs::exists(rt, PART)?,
    ])
}

const PLANTED: &str = "papers_tests.planted";

#[test]
fn a_link_is_not_followed(rt: HostRuntime) -> Result<(), Fail> {
    fs::create_dir(&rt, PLANTED)?;
    fs::write(&rt, VICTIM, b"mine")?;
    let planted = planted(&rt)?;
    let kept = fs::read_to_string(&rt, VICTIM)?.as_str() == "mine";
    fs::remove_dir_all(&rt, PLANTED)?;
    fs::remove_file(&rt, VICTIM)?;
    assert!(rt; planted == [true; 4] && kept);
    Ok(())
}

fn breaks<S: Source>(source: &mut S) -> bool {
    source.take(&mut [0; 8]).is_err() && source.faults() == 1
}

// Whether what is read at this path fails, and isn't taken for a paper's end.
fn fails(papers: &mut Files<'_>, path: &str) -> bool {
    match papers.read(path) {
        Ok(mut paper) => breaks(&mut paper),
        Err(_) => false,
    }
}

#[test]
fn a_folder_in_a_papers_place_is_a_fault_and_no_empty_paper(rt: HostRuntime) {
    assert!(rt; fails(&mut PaperFiles::new(SystemPapers::new(&rt)), "."));
}
