//! The words of a server's command line.
use crate::told::is_told;
use express_words::NoMemory;
use server_words::{ServerTask, asked_of};
use std::alloc::{AllocError, Global};
use std::test::Fail;

fn words_of(alloc: Global, words: &[&str]) -> Result<Vec<String>, AllocError> {
    let mut all = Vec::new(alloc);
    for word in words {
        all.push(String::from_str(alloc, word)?)?;
    }
    Ok(all)
}

// Its callers learn nothing of how words are read, which keeps their proofs small.
fn task_in(alloc: Global, words: &Vec<String>) -> Result<Option<ServerTask>, NoMemory> {
    asked_of(alloc, words)
}

fn task_told(task: &ServerTask, told: &mut String) -> Result<(), AllocError> {
    match task {
        ServerTask::Run(path) => write!(told, "run {}\n", path.as_str()),
        ServerTask::Status(path) => write!(told, "status {}\n", path.as_str()),
        ServerTask::Check(path) => write!(told, "check {}\n", path.as_str()),
        ServerTask::Owner(path, lane) => write!(told, "owner {} {lane}\n", path.as_str()),
        ServerTask::Help => write!(told, "help\n"),
        ServerTask::Version => write!(told, "version\n"),
    }
}

fn words_told(alloc: Global, words: &[&str], told: &mut String) -> Result<(), Fail> {
    let words = words_of(alloc, words)?;
    match task_in(alloc, &words) {
        Ok(Some(task)) => task_told(&task, told)?,
        Ok(None) => write!(told, "none\n")?,
        Err(_) => write!(told, "no memory\n")?,
    }
    Ok(())
}

fn all_told(alloc: Global, lines: &[&[&str]]) -> Result<String, Fail> {
    let mut told = String::new(alloc);
    for words in lines {
        words_told(alloc, words, &mut told)?;
    }
    Ok(told)
}

#[test]
fn words_of_a_server(rt: HostRuntime) -> Result<(), Fail> {
    let lines: [&[&str]; 9] = [
        &["run", "a.toml"],
        &["status", "a.toml"],
        &["check", "a.log"],
        &["owner", "a.toml", "0"],
        &["owner", "a.toml", "255"],
        &["--help"],
        &["-h"],
        &["--version"],
        &["-V"],
    ];
    is_told(
        all_told(rt.alloc(), lines.as_slice()),
        "run a.toml\nstatus a.toml\ncheck a.log\nowner a.toml 0\nowner a.toml 255\nhelp\nhelp\nversion\nversion\n",
    )
}

#[test]
fn other_words(rt: HostRuntime) -> Result<(), Fail> {
    let lines: [&[&str]; 10] = [
        &[],
        &["run"],
        &["run", "a.toml", "b.toml"],
        &["serve", "a.toml"],
        &["owner", "a.toml"],
        &["owner", "a.toml", "256"],
        &["owner", "a.toml", "01"],
        &["owner", "a.toml", "1", "2"],
        &["run", "--help"],
        &["--quick", "run", "a.toml"],
    ];
    is_told(
        all_told(rt.alloc(), lines.as_slice()),
        "none\nnone\nnone\nnone\nnone\nnone\nnone\nnone\nnone\nnone\n",
    )
}
