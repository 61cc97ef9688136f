//! The lines that a server prints.
use crate::told::is_told;
use lane_gate::Ticket;
use server_settings::{BadSettings, Key, SettingsFault, read_settings};
use server_words::{OwnerLine, Start, Stop};
use std::alloc::{AllocError, Global};
use std::test::Fail;

const HELPER: &[u8] =
    b"role = 'helper'\nwidth = 16\nboxes = 1\nowners = 1\nstrangers = 0\nwindow = 1\n\
    clients = '127.0.0.1:7001'\nlink = '127.0.0.1:7101'\nfolder = '.'\n";

fn start_told(alloc: Global) -> Result<String, Fail> {
    let mut told = String::new(alloc);
    match read_settings(alloc, HELPER) {
        Ok(settings) => {
            let start = Start {
                settings: &settings,
                bytes: 1234,
                records: 12,
            };
            write!(told, "{start}\n")?;
        }
        Err(fault) => write!(told, "{fault}\n")?,
    }
    Ok(told)
}

#[test]
fn a_start(rt: HostRuntime) -> Result<(), Fail> {
    is_told(
        start_told(rt.alloc()),
        "started as helper, clients 127.0.0.1:7001, link 127.0.0.1:7101, status none, log 1234 bytes, 12 records\n",
    )
}

fn key_told(alloc: Global) -> Result<String, Fail> {
    let mut told = String::new(alloc);
    let key = Ticket([
        0, 17, 34, 51, 68, 85, 102, 119, 136, 153, 170, 187, 204, 221, 238, 255,
    ]);
    match OwnerLine::of(alloc, 3, &key) {
        Ok(line) => write!(told, "{line}\n")?,
        Err(fault) => write!(told, "{fault}\n")?,
    }
    Ok(told)
}

#[test]
fn a_key(rt: HostRuntime) -> Result<(), Fail> {
    is_told(
        key_told(rt.alloc()),
        "lane 3 key 00112233445566778899aabbccddeeff\n",
    )
}

fn stop_told(stop: &Stop, told: &mut String) -> Result<(), AllocError> {
    write!(told, "{} {stop}\n", stop.status())
}

fn stops_told(alloc: Global) -> Result<String, Fail> {
    let mut told = String::new(alloc);
    let bad = SettingsFault::Bad(BadSettings::Missing(Key::Folder));
    for stop in [
        Stop::Ended,
        Stop::Words,
        Stop::from(bad),
        Stop::Unopened,
        Stop::LogFailed,
        Stop::Address(Key::Clients),
        Stop::from(SettingsFault::NoMemory),
        Stop::NoServer,
    ] {
        stop_told(&stop, &mut told)?;
    }
    Ok(told)
}

#[test]
fn stops(rt: HostRuntime) -> Result<(), Fail> {
    is_told(
        stops_told(rt.alloc()),
        "0 stopped with status 0, done\n\
        2 stopped with status 2, these are no words of express-server, see --help\n\
        3 stopped with status 3, bad settings, folder is missing, and takes the path of a folder\n\
        4 stopped with status 4, the folder or the log can't be opened\n\
        5 stopped with status 5, the log failed while the server ran\n\
        6 stopped with status 6, the address under clients can't be used\n\
        7 stopped with status 7, out of memory\n\
        8 stopped with status 8, no server answers at the address under status\n",
    )
}
