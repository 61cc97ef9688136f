//! The keys of a settings file.
ghost use Rattle.std.specs.Prelude.{◌≡◌, Some};
ghost use Rattle.server_settings.specs.Keys.{key_name, key_of, key_takes};

use std::fmt;

/// A key of a settings file, in the order in which they are judged.
#[derive(Clone, Copy, Debug, PartialEq, Eq)]
pub enum Key {
    /// Which of the two servers it is.
    Role,
    /// The bytes of a box's message.
    Width,
    /// How many boxes there are at most.
    Boxes,
    /// How many lanes are owners', from lane 0 on.
    Owners,
    /// How many lanes behind them are the strangers'.
    Strangers,
    /// How many commands are outstanding on the link at most.
    Window,
    /// Where clients connect.
    Clients,
    /// Where the helper listens for its leader, and the leader dials its helper.
    Link,
    /// Where an operator asks how the server stands.
    Status,
    /// Where the log is kept.
    Folder,
    /// How many connections are open at most.
    Places,
    /// The pages that a browser may read answers from.
    Origin,
}

impl Key {
    /// Its name in the file.
    pub fn name(self) -> &'static str
        ensures { result.now ≡ key_name self }
    {
        match self {
            Key::Role => "role",
            Key::Width => "width",
            Key::Boxes => "boxes",
            Key::Owners => "owners",
            Key::Strangers => "strangers",
            Key::Window => "window",
            Key::Clients => "clients",
            Key::Link => "link",
            Key::Status => "status",
            Key::Folder => "folder",
            Key::Places => "places",
            Key::Origin => "origin",
        }
    }

    /// The key of a name, if it is one.
    pub fn of(name: &str) -> Option<Key>
        ensures { result ≡ key_of name.now }
    {
        match name {
            "role" => Some(Key::Role),
            "width" => Some(Key::Width),
            "boxes" => Some(Key::Boxes),
            "owners" => Some(Key::Owners),
            "strangers" => Some(Key::Strangers),
            "window" => Some(Key::Window),
            "clients" => Some(Key::Clients),
            "link" => Some(Key::Link),
            "status" => Some(Key::Status),
            "folder" => Some(Key::Folder),
            "places" => Some(Key::Places),
            "origin" => Some(Key::Origin),
            _ => None,
        }
    }

    /// What it takes, in words.
    pub fn takes(self) -> &'static str
        ensures { result.now ≡ key_takes self }
    {
        match self {
            Key::Role => "\"leader\" or \"helper\"",
            Key::Width => "a multiple of 16 from 16 to 4096",
            Key::Boxes => "a number from 1 to 4096",
            Key::Owners | Key::Strangers => "a number from 0 to 256",
            Key::Window => "a number from 1 to 32",
            Key::Clients | Key::Link => "\"HOST:PORT\"",
            Key::Status => "\"127.0.0.1:PORT\" or \"[::1]:PORT\"",
            Key::Folder => "the path of a folder",
            Key::Places => "a number from 16 to 4096",
            Key::Origin => "1 to 255 visible ASCII characters",
        }
    }
}

impl fmt::Display for Key {
    ghost output = { λ key. Some (key_name key) };

    fn fmt<W: fmt::Write>(&self, f: &mut fmt::Formatter<W>) -> fmt::Result {
        f.write_str(self.name())
    }
}
