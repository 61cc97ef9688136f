//! One server's settings, one client's and one carrier's, the first wrong key of each, and texts that aren't
//! TOML.
use crate::told::is_told;
use express_words::Role;
use settings_text::{
    Asking, CarryJob, CarrySettings, ClientSettings, ServeSettings, TextFault, read_carry,
    read_client, read_serve,
};
use std::alloc::{AllocError, Global};
use std::test::Fail;

// A key with a right value and a wrong one.
type Key = (&'static str, &'static str, &'static str);

const SERVE: [Key; 8] = [
    ("role", "'leader'", "'Leader'"),
    ("listen", "'127.0.0.1:7001'", "7001"),
    ("peer", "'127.0.0.1:7000'", "['127.0.0.1:7000']"),
    ("width", "4096", "4088"),
    ("boxes", "4096", "4097"),
    ("lanes", "256", "257"),
    ("window", "32", "0"),
    ("connections", "1000000", "1000001"),
];

const CLIENT: [Key; 9] = [
    ("lane", "255", "256"),
    ("leader", "'127.0.0.1:7001'", "7001"),
    ("helper", "'127.0.0.1:7000'", "7000"),
    ("width", "16", "15"),
    ("boxes", "1", "0"),
    ("serial", "0xffff_ffff", "0x1_0000_0000"),
    (
        "seed",
        "'00000000000000000000000000000000000000000000000000000000000000fF'",
        "'00'",
    ),
    (
        "owned",
        "[{ box = 4095, serial = 1 }]",
        "[{ box = 1, serial = 1 }, { box = 2, serial = 2 }]",
    ),
    (
        "request",
        "[{ kind = 'register', address = '00112233445566778899AABBCCDDEEFF' }, \
        { kind = 'write', address = '00000000000000000000000000000001', \
        message = '000102030405060708090a0b0c0d0e0f' }, \
        { kind = 'read', own = 0 }, { kind = 'retire', own = 4095 }]",
        "[{ kind = 'write', address = '00000000000000000000000000000001', message = '0001020304' }]",
    ),
];

// Behind a lane and the servers' places.
const CARRY: [Key; 7] = [
    ("width", "32", "16"),
    ("boxes", "1", "-1"),
    ("serial", "1", "0"),
    ("mode", "'send'", "'fetch'"),
    ("id", "9223372036854775807", "-1"),
    ("file", "'000102030405060708090a0b0c0d0e0f10'", "'000'"),
    (
        "addresses",
        "['00000000000000000000000000000001', '00000000000000000000000000000002']",
        "['00000000000000000000000000000001', '00000000000000000000000000000001']",
    ),
];

fn put_key(text: &mut String, key: &str, value: &str) -> Result<(), AllocError> {
    write!(text, "{key} = {value}\n")
}

// The keys, with right values before this place and wrong ones from it on.
fn text_of(alloc: Global, keys: &[Key], wrong_from: usize) -> Result<String, AllocError> {
    let mut text = String::new(alloc);
    let (good, bad) = keys.split_at(wrong_from.min(keys.len()));
    for (key, right, _) in good {
        put_key(&mut text, key, right)?;
    }
    for (key, _, wrong) in bad {
        put_key(&mut text, key, wrong)?;
    }
    Ok(text)
}

// Its callers learn nothing of how settings are spelled, which keeps their proofs small.
fn server_in(alloc: Global, text: &[u8]) -> Result<ServeSettings, TextFault> {
    read_serve(alloc, text)
}

fn server_told(server: &ServeSettings, told: &mut String) -> Result<(), AllocError> {
    let role = match server.role {
        Role::Leader => "leader",
        Role::Helper => "helper",
    };
    write!(
        told,
        "{role} {} {}\n",
        server.listen.as_str(),
        server.peer.as_str()
    )?;
    write!(told, "{:?} {}\n", server.settings, server.connections)
}

// The settings that a text is read as, or its fault.
fn server_text_told(alloc: Global, text: &[u8], told: &mut String) -> Result<(), AllocError> {
    match server_in(alloc, text) {
        Ok(server) => server_told(&server, told),
        Err(fault) => write!(told, "{fault}\n"),
    }
}

// With the first key wrong, the second, and so on; and with none.
fn servers_told(alloc: Global) -> Result<String, Fail> {
    let mut told = String::new(alloc);
    for wrong_from in 0..SERVE.len() + 1 {
        let text = text_of(alloc, &SERVE, wrong_from)?;
        server_text_told(alloc, text.as_bytes(), &mut told)?;
    }
    Ok(told)
}

const SERVERS: &str =
    "bad settings role\nbad settings listen\nbad settings peer\nbad settings width\n\
    bad settings boxes\nbad settings lanes\nbad settings window\nbad settings connections\n\
    leader 127.0.0.1:7001 127.0.0.1:7000\n\
    Settings { width: 4096, boxes: 4096, lanes: 256, window: 32 } 1000000\n";

fn other_texts_told(alloc: Global, texts: &[&[u8]]) -> Result<String, Fail> {
    let mut told = String::new(alloc);
    for text in texts {
        server_text_told(alloc, text, &mut told)?;
    }
    Ok(told)
}

// A leader's, the first wrong key, and texts that aren't TOML.
#[test]
fn a_servers_settings(rt: HostRuntime) -> Result<(), Fail> {
    is_told(servers_told(rt.alloc()), SERVERS)?;
    let others = "bad settings toml\nbad settings toml\nbad settings role\n";
    is_told(
        other_texts_told(rt.alloc(), &[b"role = ", b"# \xff\n", b""]),
        others,
    )
}

fn client_in(alloc: Global, text: &[u8]) -> Result<ClientSettings, TextFault> {
    read_client(alloc, text)
}

fn asking_told(asking: &Asking, told: &mut String) -> Result<(), AllocError> {
    let (kind, number, message): (&str, u128, &[u8]) = match asking {
        Asking::Register(address) => ("register", *address, &[]),
        Asking::Write(address, message) => ("write", *address, message.as_slice()),
        Asking::Read(own) => ("read", u128::from(*own), &[]),
        Asking::Retire(own) => ("retire", u128::from(*own), &[]),
    };
    write!(told, "{kind} {number:x} {message:?}\n")
}

fn requests_told(requests: &[Asking], told: &mut String) -> Result<(), AllocError> {
    for asking in requests {
        asking_told(asking, told)?;
    }
    Ok(())
}

fn client_told(client: &ClientSettings, told: &mut String) -> Result<(), AllocError> {
    let (leader, helper) = (client.leader.as_str(), client.helper.as_str());
    write!(told, "{} {leader} {helper}\n", client.lane)?;
    write!(
        told,
        "{} {} {}\n",
        client.width, client.boxes, client.serial
    )?;
    write!(told, "{:?}\n{:?}\n", client.seed, client.owned.as_slice())?;
    requests_told(client.requests.as_slice(), told)
}

fn client_text_told(alloc: Global, text: &[u8], told: &mut String) -> Result<(), AllocError> {
    match client_in(alloc, text) {
        Ok(client) => client_told(&client, told),
        Err(fault) => write!(told, "{fault}\n"),
    }
}

fn clients_told(alloc: Global) -> Result<String, Fail> {
    let mut told = String::new(alloc);
    for wrong_from in 0..CLIENT.len() + 1 {
        let text = text_of(alloc, &CLIENT, wrong_from)?;
        client_text_told(alloc, text.as_bytes(), &mut told)?;
    }
    Ok(told)
}

const CLIENTS: &str =
    "bad settings lane\nbad settings leader\nbad settings helper\nbad settings width\n\
    bad settings boxes\nbad settings serial\nbad settings seed\nbad settings owned\n\
    bad settings request\n255 127.0.0.1:7001 127.0.0.1:7000\n16 1 4294967295\n\
    Some([0, 0, 0, 0, 0, 0, 0, 0, 0, 0, 0, 0, 0, 0, 0, 0, 0, 0, 0, 0, 0, 0, 0, 0, 0, 0, 0, 0, 0, 0, 0, 255])\n\
    [OwnedBox { box_number: 4095, serial: 1 }]\n\
    register 112233445566778899aabbccddeeff []\n\
    write 1 [0, 1, 2, 3, 4, 5, 6, 7, 8, 9, 10, 11, 12, 13, 14, 15]\nread 0 []\nretire fff []\n";

// A client's, and the first wrong key.
#[test]
fn a_clients_settings(rt: HostRuntime) -> Result<(), Fail> {
    is_told(clients_told(rt.alloc()), CLIENTS)
}

fn carrier_in(alloc: Global, text: &[u8]) -> Result<CarrySettings, TextFault> {
    read_carry(alloc, text)
}

fn carrier_told(carrier: &CarrySettings, told: &mut String) -> Result<(), AllocError> {
    write!(told, "{} {:?}\n", carrier.width, carrier.seed)?;
    match &carrier.job {
        CarryJob::Send {
            id,
            file,
            addresses,
        } => write!(
            told,
            "send {id} {:?} {:?}\n",
            file.as_slice(),
            addresses.as_slice()
        ),
        CarryJob::Fetch => told.push_str("fetch\n"),
    }
}

fn carrier_text_told(alloc: Global, text: &[u8], told: &mut String) -> Result<(), AllocError> {
    match carrier_in(alloc, text) {
        Ok(carrier) => carrier_told(&carrier, told),
        Err(fault) => write!(told, "{fault}\n"),
    }
}

fn carriers_told(alloc: Global) -> Result<String, Fail> {
    let mut told = String::new(alloc);
    for wrong_from in 0..CARRY.len() + 1 {
        let mut text = text_of(alloc, &CLIENT[..3], 3)?;
        let rest = text_of(alloc, &CARRY, wrong_from)?;
        text.push_str(rest.as_str())?;
        carrier_text_told(alloc, text.as_bytes(), &mut told)?;
    }
    Ok(told)
}

// A fetch without owned boxes is a wrong `owned`.
const CARRIERS: &str =
    "bad settings width\nbad settings boxes\nbad settings serial\nbad settings owned\n\
    bad settings id\nbad settings file\nbad settings addresses\n32 None\n\
    send 9223372036854775807 [0, 1, 2, 3, 4, 5, 6, 7, 8, 9, 10, 11, 12, 13, 14, 15, 16] [1, 2]\n";

// A carrier's, and the first wrong key.
#[test]
fn a_carriers_settings(rt: HostRuntime) -> Result<(), Fail> {
    is_told(carriers_told(rt.alloc()), CARRIERS)
}
