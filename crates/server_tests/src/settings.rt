//! A server's settings file: each key missing, each bound, and what is told of each fault.
use crate::told::is_told;
use express_words::Role;
use server_settings::{ServerSettings, SettingsFault, read_settings};
use std::alloc::{AllocError, Global};
use std::test::Fail;

// A key, and what stands under it.
type Entry = (&'static str, &'static str);

const RIGHT: [Entry; 12] = [
    ("role", "'leader'"),
    ("width", "4096"),
    ("boxes", "4096"),
    ("owners", "192"),
    ("strangers", "64"),
    ("window", "32"),
    ("clients", "'0.0.0.0:7000'"),
    ("link", "'helper.example.org:7100'"),
    ("status", "'127.0.0.1:7200'"),
    ("folder", "'/var/lib/express'"),
    ("places", "4096"),
    ("origin", "'https://example.org'"),
];

fn put_entry(text: &mut String, key: &str, value: &str) -> Result<(), AllocError> {
    if value.is_empty() {
        return Ok(());
    }
    write!(text, "{key} = {value}\n")
}

// The right entries, with this one in place of the one of its key; an empty value is none.
fn text_with(alloc: Global, other: Entry) -> Result<String, AllocError> {
    let mut text = String::new(alloc);
    for (key, value) in RIGHT {
        put_entry(&mut text, key, if key == other.0 { other.1 } else { value })?;
    }
    Ok(text)
}

// Its callers learn nothing of how settings are spelled, which keeps their proofs small.
fn settings_in(alloc: Global, text: &[u8]) -> Result<ServerSettings, SettingsFault> {
    read_settings(alloc, text)
}

fn server_told(server: &ServerSettings, told: &mut String) -> Result<(), AllocError> {
    let role = match server.role {
        Role::Leader => "leader",
        Role::Helper => "helper",
    };
    let doors = &server.doors;
    write!(told, "{role} {:?}\n", server.sizes)?;
    write!(told, "{} {}", doors.clients, doors.link)?;
    match &doors.status {
        Some(status) => write!(told, " {status}\n")?,
        None => write!(told, " no status\n")?,
    }
    let origin = match &server.origin {
        Some(origin) => origin.as_str(),
        None => "no origin",
    };
    write!(
        told,
        "{} {} {origin}\n",
        server.folder.as_str(),
        server.places
    )
}

// What is told of a fault, and nothing of settings that are taken.
fn fault_told(alloc: Global, text: &[u8], told: &mut String) -> Result<(), AllocError> {
    match settings_in(alloc, text) {
        Ok(_) => Ok(()),
        Err(fault) => write!(told, "{fault}\n"),
    }
}

fn faults_told(alloc: Global, entries: &[Entry]) -> Result<String, Fail> {
    let mut told = String::new(alloc);
    for entry in entries {
        let text = text_with(alloc, *entry)?;
        fault_told(alloc, text.as_bytes(), &mut told)?;
    }
    Ok(told)
}

fn whole_told(alloc: Global, text: &[u8]) -> Result<String, Fail> {
    let mut told = String::new(alloc);
    match settings_in(alloc, text) {
        Ok(server) => server_told(&server, &mut told)?,
        Err(fault) => write!(told, "{fault}\n")?,
    }
    Ok(told)
}

#[test]
fn whole_files(rt: HostRuntime) -> Result<(), Fail> {
    let alloc = rt.alloc();
    let text = text_with(alloc, ("", ""))?;
    is_told(
        whole_told(alloc, text.as_bytes()),
        "leader Sizes { settings: Settings { width: 4096, boxes: 4096, lanes: 256, window: 32 }, \
        gate: GateOpening { owners: 192, strangers: 64 } }\n\
        0.0.0.0:7000 helper.example.org:7100 127.0.0.1:7200\n\
        /var/lib/express 4096 https://example.org\n",
    )?;
    let least = b"role = 'helper'\nwidth = 16\nboxes = 1\nowners = 1\nstrangers = 0\nwindow = 1\n\
        clients = '[::]:1'\nlink = '[::]:2'\nfolder = '.'\n";
    is_told(
        whole_told(alloc, least.as_slice()),
        "helper Sizes { settings: Settings { width: 16, boxes: 1, lanes: 1, window: 1 }, \
        gate: GateOpening { owners: 1, strangers: 0 } }\n\
        [::]:1 [::]:2 no status\n. 1024 no origin\n",
    )
}

#[test]
fn missing_keys(rt: HostRuntime) -> Result<(), Fail> {
    let mut entries = RIGHT;
    for entry in entries.iter_mut() {
        entry.1 = "";
    }
    is_told(
        faults_told(rt.alloc(), entries.as_slice()),
        "bad settings: role is missing, and takes \"leader\" or \"helper\"\n\
        bad settings: width is missing, and takes a multiple of 16 from 16 to 4096\n\
        bad settings: boxes is missing, and takes a number from 1 to 4096\n\
        bad settings: owners is missing, and takes a number from 0 to 256\n\
        bad settings: strangers is missing, and takes a number from 0 to 256\n\
        bad settings: window is missing, and takes a number from 1 to 32\n\
        bad settings: clients is missing, and takes \"HOST:PORT\"\n\
        bad settings: link is missing, and takes \"HOST:PORT\"\n\
        bad settings: folder is missing, and takes the path of a folder\n",
    )
}

const BOUNDS: [Entry; 17] = [
    ("role", "'helper'"),
    ("width", "16"),
    ("width", "0"),
    ("width", "24"),
    ("width", "4112"),
    ("boxes", "0"),
    ("boxes", "4097"),
    ("owners", "257"),
    ("owners", "193"),
    ("strangers", "-1"),
    ("window", "0"),
    ("window", "33"),
    ("places", "15"),
    ("places", "16"),
    ("places", "4097"),
    ("folder", "''"),
    ("origin", "' '"),
];

#[test]
fn bounds(rt: HostRuntime) -> Result<(), Fail> {
    is_told(
        faults_told(rt.alloc(), BOUNDS.as_slice()),
        "bad settings: width is 0, and takes a multiple of 16 from 16 to 4096\n\
        bad settings: width is 24, and takes a multiple of 16 from 16 to 4096\n\
        bad settings: width is 4112, and takes a multiple of 16 from 16 to 4096\n\
        bad settings: boxes is 0, and takes a number from 1 to 4096\n\
        bad settings: boxes is 4097, and takes a number from 1 to 4096\n\
        bad settings: owners is 257, and takes a number from 0 to 256\n\
        bad settings: owners is 193 and strangers is 64, and together they take 1 to 256\n\
        bad settings: strangers is -1, and takes a number from 0 to 256\n\
        bad settings: window is 0, and takes a number from 1 to 32\n\
        bad settings: window is 33, and takes a number from 1 to 32\n\
        bad settings: places is 15, and takes a number from 16 to 4096\n\
        bad settings: places is 4097, and takes a number from 16 to 4096\n\
        bad settings: folder is \"\", and takes the path of a folder\n\
        bad settings: origin is \" \", and takes 1 to 255 visible ASCII characters\n",
    )
}

const OTHERS: [Entry; 15] = [
    ("role", "'Leader'"),
    ("role", "1.5"),
    ("width", "true"),
    ("boxes", "'4'"),
    ("clients", "7000"),
    ("clients", "'7000'"),
    ("clients", "'localhost:0'"),
    ("link", "['127.0.0.1:7100']"),
    ("link", "'0.0.0.0:7000'"),
    ("status", "'0.0.0.0:7200'"),
    ("status", "'127.0.0.1.example.org:7200'"),
    ("status", "'[::1]:7200'"),
    ("clients", "'127.0.0.1:7200'"),
    ("link", "'127.0.0.1:7200'"),
    ("folder", "{ path = '/' }"),
];

#[test]
fn other_values(rt: HostRuntime) -> Result<(), Fail> {
    is_told(
        faults_told(rt.alloc(), OTHERS.as_slice()),
        "bad settings: role is \"Leader\", and takes \"leader\" or \"helper\"\n\
        bad settings: role is a number that isn't whole, and takes \"leader\" or \"helper\"\n\
        bad settings: width is true, and takes a multiple of 16 from 16 to 4096\n\
        bad settings: boxes is \"4\", and takes a number from 1 to 4096\n\
        bad settings: clients is 7000, and takes \"HOST:PORT\"\n\
        bad settings: clients is \"7000\", and takes \"HOST:PORT\"\n\
        bad settings: clients is \"localhost:0\", and takes \"HOST:PORT\"\n\
        bad settings: link is a list, and takes \"HOST:PORT\"\n\
        bad settings: clients and link are both \"0.0.0.0:7000\", and take addresses that differ\n\
        bad settings: status is \"0.0.0.0:7200\", and takes \"127.0.0.1:PORT\" or \"[::1]:PORT\"\n\
        bad settings: status is \"127.0.0.1.example.org:7200\", and takes \"127.0.0.1:PORT\" or \"[::1]:PORT\"\n\
        bad settings: clients and status are both \"127.0.0.1:7200\", and take addresses that differ\n\
        bad settings: link and status are both \"127.0.0.1:7200\", and take addresses that differ\n\
        bad settings: folder is a table, and takes the path of a folder\n",
    )
}

#[test]
fn other_texts(rt: HostRuntime) -> Result<(), Fail> {
    let alloc = rt.alloc();
    let mut told = String::new(alloc);
    for text in [
        b"role = ".as_slice(),
        b"# \xff\n",
        b"role = 1979-05-27\nlanes = 4\nports = 1\n",
    ] {
        fault_told(alloc, text, &mut told)?;
    }
    fault_told(alloc, b"role = 1979-05-27", &mut told)?;
    is_told(
        Ok(told),
        "bad settings: the settings aren't TOML in UTF-8\n\
        bad settings: the settings aren't TOML in UTF-8\n\
        bad settings: no key is called lanes\n\
        bad settings: role is a date or a time, and takes \"leader\" or \"helper\"\n",
    )
}
